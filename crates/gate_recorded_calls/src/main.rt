// Replays the recorded lists (oracle/recorded). For each it prints the listing, and then what the oracle prints with `--detail`: the lines of each call, an advance's
// applied writes, the read totals and the place of a fault. `stdout` has what the oracle printed; tools/gate_recorded_calls.py makes it and `data/lists`.
#![tactic(auto)]

ghost use Rattle.std.specs.Prelude.{◌≤◌, ◌<◌, length, IfOk};

use call_reader::ListedCall;
use call_run::RunEnd;
use digits::Output;
use reader::{Cursor, Fault, Reader};
use std::io::Read;
use std::{fs, io};

// The bytes of a store of 256 records.
const STORE_SIZE: usize = layout::RECORDS_OFFSET + 256 * layout::RECORD_SIZE;

fn say(rt: &impl Print, text: &[u8]) -> io::Result<()> {
    rt.write_all(text)
}

// A number with a blank before it.
fn field(rt: &impl Print, n: u64) -> io::Result<()> {
    say(rt, b" ")?;
    rt.print(n)
}

// The totals of reads, where a generation is installed: coalesced, rounds, members, member errors; then accepted, served, waiting, woken with a value, woken refused.
fn print_stats(rt: &impl Print, s: &[u8]) -> io::Result<()> {
    if s.len() < layout::ENDS_OFFSET {
        return Ok(());
    }
    if words::read_u64(s, layout::INSTALLED_OFFSET) == 0 {
        return Ok(());
    }
    say(rt, b"stats")?;
    field(rt, words::read_u64(s, layout::COALESCED_OFFSET))?;
    field(rt, words::read_u64(s, layout::ROUNDS_OFFSET))?;
    field(rt, words::read_u64(s, layout::MEMBERS_OFFSET))?;
    field(rt, words::read_u64(s, layout::ERRORS_OFFSET))?;
    say(rt, b"\nreads")?;
    field(rt, words::read_u64(s, layout::ACCEPTED_OFFSET))?;
    field(rt, words::read_u64(s, layout::SERVED_OFFSET))?;
    field(rt, words::read_u64(s, layout::WAITING_OFFSET))?;
    field(rt, words::read_u64(s, layout::VALUED_OFFSET))?;
    field(rt, words::read_u64(s, layout::REFUSED_OFFSET))?;
    say(rt, b"\n")
}

// The slot of entry i of an output.
fn print_slot(rt: &impl Print, entries: &[u8], i: usize) -> io::Result<()> {
    if entries.len() / 52 <= i {
        return Ok(());
    }
    let mut line = [0u8; 110];
    let slot = reader::slot_at(entries, i * 52);
    let mut out = Output {
        bytes: &mut line,
        at: 0,
    };
    listing::slot_line(&mut out, slot);
    say(rt, b"  ")?;
    say(rt, &line)
}

// The writes that an advance applied.
fn print_applied(rt: &impl Print, entries: &[u8], applied: u64) -> io::Result<()> {
    say(rt, b"applied")?;
    field(rt, applied)?;
    say(rt, b"\n")?;
    for i in 0..applied as usize {
        print_slot(rt, entries, i)?;
    }
    Ok(())
}

// Whether lines begin with a refusal.
fn is_refusal(lines: &[u8]) -> bool {
    lines.starts_with(b"no ")
}

// Prints lines; whether they are no refusal.
fn print_lines(rt: &impl Print, out: &[u8], written: usize) -> io::Result<bool> {
    if out.len() < written {
        return Ok(false);
    }
    let lines = &out[0..written];
    say(rt, lines)?;
    Ok(!is_refusal(lines))
}

// Runs one call and prints its lines; whether it was accepted.
fn print_call(rt: &impl Print, call: &[u8], s: &mut [u8]) -> io::Result<bool> {
    let mut work = [0u8; STORE_SIZE];
    let mut entries = [0u8; 53248];
    let mut members = [0u8; 105060];
    let mut out = [0u8; 16384];
    match call_run::run(
        call,
        Cursor { at: 0 },
        s,
        &mut work,
        &mut entries,
        &mut members,
        &mut out,
    ) {
        Err(_) => Ok(false),
        Ok(
            RunEnd::Listed {
                next: _,
                written,
                ended: _,
            },
        ) => print_lines(rt, &out, written),
        Ok(
            RunEnd::Broken {
                fault: _,
                place: _,
                written,
            },
        ) => print_lines(rt, &out, written),
    }
}

fn copy(to: &mut [u8], from: &[u8]) {
    if to.len() < from.len() {
        return;
    }
    words::place(to, 0, from);
}

// Where the entries of a span end, of `width` bytes each, if they stand in the list; else where it begins.
fn end_of(list: &[u8], start: usize, count: usize, width: usize) -> usize
    requires { (0 < width) × (start ≤ length list.now) }
    ensures { (start ≤ result) × (result ≤ length list.now) }
{
    if (list.len() - start) / width < count {
        return start;
    }
    start + count * width
}

// Prints the writes that an advance of these lists applies to a copy of the store. It has to leave the bytes that the run left.
fn print_advance(
    rt: &impl Print,
    list: &[u8],
    call: ListedCall,
    before: &mut [u8],
    after: &[u8],
) -> io::Result<()> {
    let ListedCall::Advance(child, parent_hash, prepared) = call else {
        return Ok(());
    };
    let addresses = prepared.relevance;
    let writes = prepared.writes;
    let first_address = addresses.start;
    let first_write = writes.start;
    if list.len() < first_address {
        return Ok(());
    }
    if list.len() < first_write {
        return Ok(());
    }
    let addresses_end = end_of(list, first_address, addresses.count, 20);
    let writes_end = end_of(list, first_write, writes.count, 84);
    let mut work = [0u8; STORE_SIZE];
    let mut entries = [0u8; 53248];
    let answer = store::advance(
        before,
        child,
        parent_hash,
        prepared.skip,
        &list[first_address..addresses_end],
        &list[first_write..writes_end],
        &mut work,
        &mut entries,
    );
    if &*before != after {
        say(rt, b"the bytes differ\n")?;
    }
    let Ok(report) = answer else {
        return Ok(());
    };
    let counts = report.writes;
    print_applied(rt, &entries, counts.applied)
}

// A call with the lines that the listing leaves out.
fn print_detail(
    rt: &impl Print,
    list: &[u8],
    at: usize,
    next: usize,
    call: ListedCall,
    s: &mut [u8],
) -> io::Result<()>
    requires { (at ≤ next) × (next ≤ length list.now) }
{
    let mut before = [0u8; STORE_SIZE];
    copy(&mut before, s);
    if !print_call(rt, &list[at..next], s)? {
        return Ok(());
    }
    print_advance(rt, list, call, &mut before, s)?;
    print_stats(rt, s)
}

// The refusal that ends a list, and the place of the byte that it is for.
fn print_fault(rt: &impl Print, fault: Fault) -> io::Result<()> {
    say(rt, b"no")?;
    field(rt, u64::from(fault.kind))?;
    say(rt, b"\nat")?;
    field(rt, fault.place.at as u64)?;
    say(rt, b"\n")
}

// The next call of a list with its detail; the place after it.
fn print_next(rt: &impl Print, list: &[u8], at: usize, s: &mut [u8]) -> io::Result<usize>
    requires { at < length list.now }
    ensures { IfOk result (λ next. (at < next) × (next ≤ length list.now)) }
{
    let mut from = Reader { list, at };
    match call_reader::read_call(&mut from) {
        Ok(call) => {
            let next = from.at;
            print_detail(rt, list, at, next, call, s)?;
            Ok(next)
        }
        Err(kind) => {
            let place = Cursor { at: from.at };
            print_fault(rt, Fault { kind, place })?;
            Ok(list.len())
        }
    }
}

// The calls of a list with their detail.
fn print_calls(rt: &impl Print, list: &[u8]) -> io::Result<()> {
    let mut s = [0u8; STORE_SIZE];
    let mut at: usize = 0;
    while at < list.len() {
        at = print_next(rt, list, at, &mut s)?;
    }
    Ok(())
}

// A list's listing, and its detail.
fn replay(rt: &impl Print, list: &[u8]) -> io::Result<()> {
    say(rt, b"listing\n")?;
    call_print::print_listing(&mut io::writer(rt), list)?;
    say(rt, b"detail\n")?;
    print_calls(rt, list)
}

// A number of eight bytes at the beginning of a file's rest, or 0 at its end.
fn next_number(file: &mut impl Read) -> io::Result<u64> {
    let mut word = [0u8; 8];
    if call_print::read_full(file, &mut word)? < 8 {
        return Ok(0);
    }
    Ok(words::read_u64(&word, 0))
}

// The next bytes of the file, at most as many as the buffer has; how many it got.
fn read_up_to(file: &mut impl Read, buf: &mut [u8], n: u64) -> io::Result<usize>
    ensures { IfOk result (λ got. got ≤ length buf.new) }
{
    let all = buf.len();
    if all as u64 <= n {
        return call_print::read_full(file, buf);
    }
    let k = n as usize;
    call_print::read_full(file, &mut buf[0..k])
}

// The next list of the file, of which the first 65,536 bytes count. Whether there was one: a list has at least one byte.
fn replay_next(rt: &impl Print, file: &mut impl Read) -> io::Result<bool> {
    let n = next_number(file)?;
    if n == 0 {
        return Ok(false);
    }
    let mut list = [0u8; 65536];
    let got = read_up_to(file, &mut list, n)?;
    if 65536 < n {
        let mut rest = [0u8; 4096];
        read_up_to(file, &mut rest, n - 65536)?;
    }
    replay(rt, &list[0..got])?;
    Ok(true)
}

// The lists of the file; how many they are.
fn replay_all(rt: &impl Print, file: &mut impl Read) -> io::Result<u64> {
    for lists in 0..100000 {
        if !replay_next(rt, file)? {
            return Ok(lists);
        }
    }
    Ok(100000)
}

fn main(rt: HostRuntime) -> io::Result<()> {
    let mut file = fs::open(&rt, "lists")?;
    let lists = replay_all(&rt, &mut file)?;
    rt.print(lists)?;
    say(&rt, b" lists\n")
}
