// Runs open, install, look, get, put, read and take on a store; then a look of slot 1 on each truncated copy of it, and on each copy that differs in one
// byte: one more, the top bit flipped, 0, 255. It counts the copies by what the look answers: 20; the value that was put, all 32 bytes of it; another
// value; none; another refusal.
#![tactic(auto)]

ghost use Rattle.std.specs.Prelude.{◌≡◌, ◌+◌, ◌≤◌, ◌<◌, length};
ghost use Rattle.gate_store_damaged.specs.Tally.{total};

use model::delta_snapshot::{Retention, Slot};
use model::refusal::Refusal;
use model::storage_memo::{Address, ReadAnchor, U256};
use std::io;
use store::{InstallReply, Installed, LookReply, ReadOutcome, ReadReply, TakeReply};

// The bytes of a store of four records.
const STORE_SIZE: usize = layout::RECORDS_OFFSET + 4 * layout::RECORD_SIZE;

// What a look on a damaged copy answers.
#[derive(Clone, Copy, Debug, PartialEq, Eq)]
pub enum Seen {
    NoStore,
    Same,
    Another,
    Nothing,
    Refused,
}

// How many looks answered each of these.
#[derive(Clone, Copy, Debug, PartialEq, Eq)]
pub struct Tally {
    pub broken: usize,
    pub same: usize,
    pub another: usize,
    pub nothing: usize,
    pub refused: usize,
}

fn word(n: u64) -> U256 {
    U256 {
        w0: 0,
        w1: 0,
        w2: 0,
        w3: n,
    }
}

fn slot(n: u64) -> Slot {
    Slot {
        address: Address {
            w0: 17,
            w1: 0,
            w2: n,
        },
        index: word(n),
    }
}

fn say(rt: &impl Print, text: &[u8]) -> io::Result<()> {
    rt.write_all(text)
}

fn print(rt: &impl Print, label: &[u8], n: u64) -> io::Result<()> {
    say(rt, label)?;
    rt.print(n)?;
    say(rt, b"\n")
}

// A refusal's number, or 0.
fn done(r: Result<(), Refusal>) -> u64 {
    match r {
        Err(refusal) => refusal.number(),
        Ok(()) => 0,
    }
}

// A refusal's number, 100 for the same anchor, 101 for another.
fn installed(r: InstallReply) -> u64 {
    match r {
        Err(refusal) => refusal.number(),
        Ok(Installed::Same) => 100,
        Ok(Installed::Fresh) => 101,
    }
}

// A refusal's number, 100 for none, 1,000 and n for the value n below 1,000, 999 for any other value.
fn looked(r: LookReply) -> u64 {
    match r {
        Err(refusal) => refusal.number(),
        Ok(None) => 100,
        Ok(Some(v)) => {
            if v != word(v.w3 % 1000) {
                return 999;
            }
            1000 + v.w3 % 1000
        }
    }
}

// What a look of slot 1 answers.
fn look_again(s: &[u8], anchor: ReadAnchor) -> Seen {
    match store::look(s, anchor, slot(1)) {
        Err(Refusal::NotAStore) => Seen::NoStore,
        Err(_) => Seen::Refused,
        Ok(None) => Seen::Nothing,
        Ok(Some(v)) => {
            if v == word(7) {
                return Seen::Same;
            }
            Seen::Another
        }
    }
}

// A refusal's number, 1,000 for a value, or 100 and the waiters.
fn waits(r: ReadReply) -> u64 {
    match r {
        Err(refusal) => refusal.number(),
        Ok(ReadOutcome::Value(_)) => 1000,
        Ok(ReadOutcome::Waiting(n)) => 100 + n % 100,
    }
}

// A refusal's number, or 100 and the slots listed.
fn listed(r: TakeReply) -> u64 {
    match r {
        Err(refusal) => refusal.number(),
        Ok(n) => 100 + n % 100,
    }
}

// Slot 5 awaits an answer with two waiters and is taken; slot 6 is queued.
fn await_answers(rt: &impl Print, s: &mut [u8; STORE_SIZE], anchor: ReadAnchor) -> io::Result<()> {
    let mut out = [0u8; 52];
    print(rt, b"read 5 ", waits(store::read(s, anchor, slot(5))))?;
    print(rt, b"read 5 again ", waits(store::read(s, anchor, slot(5))))?;
    print(rt, b"take ", listed(store::take(s, anchor, &mut out)))?;
    print(rt, b"read 6 ", waits(store::read(s, anchor, slot(6))))
}

fn count(t: &mut Tally, answer: Seen)
    requires { total t.old + 1 ≤ 1000000 }
    ensures { total t.new ≡ total t.old + 1 }
{
    match answer {
        Seen::NoStore => t.broken += 1,
        Seen::Same => t.same += 1,
        Seen::Another => t.another += 1,
        Seen::Nothing => t.nothing += 1,
        Seen::Refused => t.refused += 1,
    }
}

fn print_tally(rt: &impl Print, t: Tally) -> io::Result<()> {
    print(rt, b"  no store ", t.broken as u64)?;
    print(rt, b"  same value ", t.same as u64)?;
    print(rt, b"  another value ", t.another as u64)?;
    print(rt, b"  none ", t.nothing as u64)?;
    print(rt, b"  other refusals ", t.refused as u64)
}

fn no_looks() -> Tally
    ensures { total result ≡ 0 }
{
    Tally {
        broken: 0,
        same: 0,
        another: 0,
        nothing: 0,
        refused: 0,
    }
}

// A look on each beginning of the bytes.
fn truncated(s: &[u8], anchor: ReadAnchor) -> Tally
    requires { length s.now ≤ 10000 }
{
    let mut t = no_looks();
    for n in 0..s.len() {
        count(&mut t, look_again(&s[..n], anchor));
    }
    t
}

// A look on the bytes with byte i replaced, if by another byte.
fn with_byte(s: &mut [u8], i: usize, d: u8, anchor: ReadAnchor, t: &mut Tally)
    requires { (i < length s.old) × (total t.old + 1 ≤ 1000000) }
    ensures { total t.new ≤ total t.old + 1 }
{
    let b = s[i];
    if d == b {
        return;
    }
    s[i] = d;
    let answer = look_again(s, anchor);
    s[i] = b;
    count(t, answer);
}

// A look on the bytes with each byte changed in turn.
fn damaged<F: Fn(u8) -> u8>(s: &mut [u8], change: F, anchor: ReadAnchor) -> Tally
    requires small { length s.old ≤ 10000 }
    requires callable { F.IsAlwaysCallable change }
{
    let mut t = no_looks();
    for i in 0..s.len() {
        let d = change(s[i]);
        with_byte(s, i, d, anchor, &mut t);
    }
    t
}

// The counts of all copies. The bytes are at the end what they were.
fn damage(rt: &impl Print, s: &mut [u8; STORE_SIZE], anchor: ReadAnchor) -> io::Result<()> {
    say(rt, b"truncated copies\n")?;
    print_tally(rt, truncated(s, anchor))?;
    say(rt, b"copies with a byte one more\n")?;
    print_tally(rt, damaged(s, |b| b.wrapping_add(1), anchor))?;
    say(rt, b"copies with a byte's top bit flipped\n")?;
    print_tally(rt, damaged(s, |b| b ^ 128, anchor))?;
    say(rt, b"copies with a byte 0\n")?;
    print_tally(rt, damaged(s, |_| 0, anchor))?;
    say(rt, b"copies with a byte 255\n")?;
    print_tally(rt, damaged(s, |_| 255, anchor))?;
    print(rt, b"look 1 ", looked(store::look(s, anchor, slot(1))))
}

fn main(rt: HostRuntime) -> io::Result<()> {
    let mut s = [0u8; STORE_SIZE];
    let anchor = ReadAnchor::identified(10, word(5));
    print(
        &rt,
        b"look before open ",
        looked(store::look(&s, anchor, slot(1))),
    )?;
    print(
        &rt,
        b"open 0 ",
        done(store::open(&mut s, 0, 1, Retention::Unbounded)),
    )?;
    print(
        &rt,
        b"open 4097 ",
        done(store::open(&mut s, 4097, 1, Retention::Unbounded)),
    )?;
    print(
        &rt,
        b"open depth 256 ",
        done(store::open(&mut s, 4, 256, Retention::Unbounded)),
    )?;
    print(
        &rt,
        b"open 5 ",
        done(store::open(&mut s, 5, 1, Retention::Unbounded)),
    )?;
    print(
        &rt,
        b"open 4 ",
        done(store::open(&mut s, 4, 1, Retention::IdleBlocks(2))),
    )?;
    print(&rt, b"look ", looked(store::look(&s, anchor, slot(1))))?;
    print(&rt, b"install ", installed(store::install(&mut s, anchor)))?;
    print(
        &rt,
        b"install again ",
        installed(store::install(&mut s, anchor)),
    )?;
    print(
        &rt,
        b"put 1 ",
        done(store::put(&mut s, anchor, slot(1), word(7))),
    )?;
    print(
        &rt,
        b"put 2 ",
        done(store::put(&mut s, anchor, slot(2), word(8))),
    )?;
    print(
        &rt,
        b"put elsewhere ",
        done(store::put(&mut s, ReadAnchor::at(9), slot(2), word(9))),
    )?;
    print(&rt, b"get 1 ", looked(store::get(&mut s, anchor, slot(1))))?;
    print(&rt, b"get 3 ", looked(store::get(&mut s, anchor, slot(3))))?;
    print(
        &rt,
        b"put 3 ",
        done(store::put(&mut s, anchor, slot(3), word(3))),
    )?;
    print(
        &rt,
        b"put 4 ",
        done(store::put(&mut s, anchor, slot(4), word(4))),
    )?;
    print(
        &rt,
        b"put 5 ",
        done(store::put(&mut s, anchor, slot(5), word(5))),
    )?;
    print(
        &rt,
        b"put 4 again ",
        done(store::put(&mut s, anchor, slot(4), word(6))),
    )?;
    print(&rt, b"look 4 ", looked(store::look(&s, anchor, slot(4))))?;
    await_answers(&rt, &mut s, anchor)?;
    damage(&rt, &mut s, anchor)
}
