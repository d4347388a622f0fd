// Runs final writes on recorded vectors and compares with what the Rust's `seed_from_accounts` answered. tools/finals_vectors.py has the vectors' form.
#![tactic(auto)]

ghost use Rattle.std.specs.Prelude.{◌≤◌, length, IfOk};

use final_writes::FinalWritesReply;
use std::io::Read;
use std::{array, fs, io};

// What an output holds before a call.
const BEFORE: u8 = 0xa5;

// So many vectors of the file are run at most.
const MOST: u64 = 100000;

// A vector's head, as numbers.
type Head = [u64; 16];

fn head_of(bytes: &[u8; 128]) -> Head {
    array::from_fn(|k| words::read_u64(bytes, 8 * k))
}

// A length of a vector's head. None exceeds 8,192: a longer one is read as 0, and the vector differs.
fn extent(n: u64) -> usize
    ensures { result ≤ 8192 }
{
    if n <= 8192 { n as usize } else { 0 }
}

// A cap: whether there is one, and its number.
fn cap(has: u64, n: u64) -> Option<u64> {
    (has != 0).then_some(n)
}

// Whether the answer is the recorded one.
fn same_answer(answer: FinalWritesReply, head: &Head) -> bool {
    match answer {
        Err(refusal) => head[11] == 0 && head[12] == refusal.number(),
        Ok(s) => head[11..] == [1, s.writes, s.reads, s.filtered, s.capped],
    }
}

// Whether an output begins with the recorded entries, and the rest is as it was.
fn holds(out: &[u8], entries: &[u8]) -> bool {
    let Some(rest) = out.strip_prefix(entries) else {
        return false;
    };
    rest.iter().all(|byte| *byte == BEFORE)
}

// How many entries a vector records for an output, of the number that its head has: none where the call is refused.
fn recorded(head: &Head, n: u64) -> usize
    ensures { result ≤ 8192 }
{
    if head[11] == 0 { 0 } else { extent(n) }
}

// Where a vector's lists end, and where its writes and its reads do.
fn lists_end(head: &Head) -> usize
    ensures { result ≤ 40960 }
{
    extent(head[0]) + extent(head[1]) + extent(head[2]) + extent(head[3]) + extent(head[4])
}

fn writes_end(head: &Head) -> usize
    ensures { result ≤ 729088 }
{
    lists_end(head) + recorded(head, head[12]) * 84
}

fn reads_end(head: &Head) -> usize {
    writes_end(head) + recorded(head, head[13]) * 52
}

// Whether the call of a vector gets the recorded answer.
fn answers(head: &Head, body: &[u8], writes_out: &mut [u8], reads_out: &mut [u8]) -> bool {
    let a = extent(head[0]);
    let s = a + extent(head[1]);
    let c = s + extent(head[2]);
    let r = c + extent(head[3]);
    let p = r + extent(head[4]);
    if body.len() < p {
        return false;
    }
    let max_writes = cap(head[7], head[8]);
    let max_reads = cap(head[9], head[10]);
    let answer = final_writes::final_writes(
        &body[..a],
        &body[a..s],
        &body[s..c],
        &body[c..r],
        &body[r..p],
        max_writes,
        max_reads,
        writes_out,
        reads_out,
    );
    same_answer(answer, head)
}

// Whether the outputs hold the recorded entries.
fn outputs_hold(head: &Head, body: &[u8], writes_out: &[u8], reads_out: &[u8]) -> bool {
    let l = lists_end(head);
    let w = writes_end(head);
    let r = reads_end(head);
    if w < l {
        return false;
    }
    if r < w {
        return false;
    }
    if body.len() < r {
        return false;
    }
    holds(writes_out, &body[l..w]) && holds(reads_out, &body[w..r])
}

// One vector: its head, and the bytes after it.
fn replay(head: &Head, body: &[u8], writes_out: &mut [u8], reads_out: &mut [u8]) -> bool {
    let w = extent(head[5]);
    let r = extent(head[6]);
    if writes_out.len() < w {
        return false;
    }
    if reads_out.len() < r {
        return false;
    }
    if !answers(head, body, &mut writes_out[..w], &mut reads_out[..r]) {
        return false;
    }
    outputs_hold(head, body, &writes_out[..w], &reads_out[..r])
}

// Reads until the buffer is full or the input ends; how many bytes it got.
fn read_full(file: &mut impl Read, buf: &mut [u8]) -> io::Result<usize>
    ensures { IfOk result (λ n. n ≤ length buf.new) }
{
    let mut done = 0;
    while done < buf.len() {
        let n = file.read(&mut buf[done..])?;
        if n == 0 {
            break;
        }
        done += n;
    }
    Ok(done)
}

// Reads n bytes of the file.
fn filled(file: &mut impl Read, buf: &mut [u8], n: usize) -> io::Result<bool> {
    if buf.len() < n {
        return Ok(false);
    }
    Ok(read_full(file, &mut buf[..n])? == n)
}

// Whether the next vector of the file gets what is recorded; none at the file's end.
fn run_next(file: &mut impl Read) -> io::Result<Option<bool>> {
    let mut bytes = [0u8; 128];
    if !filled(file, &mut bytes, 128)? {
        return Ok(None);
    }
    let head = head_of(&bytes);
    let mut body = [0u8; 65536];
    if !filled(file, &mut body, reads_end(&head))? {
        return Ok(Some(false));
    }
    let mut writes_out = [BEFORE; 65536];
    let mut reads_out = [BEFORE; 65536];
    Ok(Some(replay(&head, &body, &mut writes_out, &mut reads_out)))
}

// The vectors run, and those that differ.
#[derive(Clone, Copy, Debug, PartialEq, Eq)]
struct Tally {
    run: u64,
    different: u64,
}

fn run_all(file: &mut impl Read) -> io::Result<Tally> {
    let mut different = 0;
    for run in 0..MOST {
        let Some(same) = run_next(file)? else {
            return Ok(Tally { run, different });
        };
        different += u64::from(!same);
    }
    Ok(Tally {
        run: MOST,
        different,
    })
}

fn main(rt: HostRuntime) -> io::Result<()> {
    let mut file = fs::open(&rt, "vectors")?;
    let Tally { run, different } = run_all(&mut file)?;
    println!(rt; "{run} vectors")?;
    println!(rt; "{different} differences")
}
