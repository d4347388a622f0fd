// What no call list reaches, on prepared stores: 25, a generation that has had 4,294,967,295 accepted reads; 27, a take's output that holds fewer
// entries than the queue; the bytes that a refused call keeps; the output's bytes after a take; lists that end inside an entry; a member's flag byte.
#![tactic(auto)]

ghost use Rattle.std.specs.Prelude.{◌≡◌, length};
ghost use Rattle.model.specs.Refusals.{store_size};

use model::delta_snapshot::{Retention, Slot};
use model::storage_memo::{Address, ReadAnchor, U256};
use std::io;
use store::{AnswerReply, Answered, ReadOutcome, ReadReply, TakeReply};

// The bytes of a store of four records.
const STORE_SIZE: usize = layout::RECORDS_OFFSET + 4 * layout::RECORD_SIZE;

// The slot whose bytes are aaaabbbbbbbbccccccccddddddddeeeeeeeeffffffffslot000n.
fn slot(n: u64) -> Slot {
    Slot {
        address: Address {
            w0: 0x6161_6161,
            w1: 0x6262_6262_6262_6262,
            w2: 0x6363_6363_6363_6363,
        },
        index: U256 {
            w0: 0x6464_6464_6464_6464,
            w1: 0x6565_6565_6565_6565,
            w2: 0x6666_6666_6666_6666,
            w3: 0x736c_6f74_3030_3030 + n % 10,
        },
    }
}

fn say(rt: &impl Print, text: &[u8]) -> io::Result<()> {
    rt.write_all(text)
}

// A word and a number, with a blank before each.
fn field(rt: &impl Print, word: &[u8], n: u64) -> io::Result<()> {
    say(rt, b" ")?;
    say(rt, word)?;
    say(rt, b" ")?;
    rt.print(n)
}

// A value in hex.
fn print_value(rt: &impl Print, v: U256) -> io::Result<()> {
    say(rt, b" value ")?;
    let U256 { w0, w1, w2, w3 } = v;
    print!(rt; "{w0:016x}{w1:016x}{w2:016x}{w3:016x}")
}

fn print_read(rt: &impl Print, label: &[u8], r: ReadReply) -> io::Result<()> {
    say(rt, label)?;
    match r {
        Err(refusal) => field(rt, b"no", refusal.number())?,
        Ok(ReadOutcome::Value(v)) => print_value(rt, v)?,
        Ok(ReadOutcome::Waiting(n)) => field(rt, b"wait", n)?,
    }
    say(rt, b"\n")
}

fn print_take(rt: &impl Print, label: &[u8], r: TakeReply) -> io::Result<()> {
    say(rt, label)?;
    match r {
        Err(refusal) => field(rt, b"no", refusal.number())?,
        Ok(n) => field(rt, b"take", n)?,
    }
    say(rt, b"\n")
}

fn print_answer(rt: &impl Print, label: &[u8], r: AnswerReply) -> io::Result<()> {
    say(rt, label)?;
    match r {
        Err(refusal) => field(rt, b"no", refusal.number())?,
        Ok(
            Answered {
                members,
                errors,
                woken,
            },
        ) => {
            field(rt, b"members", members)?;
            field(rt, b"errors", errors)?;
            field(rt, b"woken", woken)?;
        }
    }
    say(rt, b"\n")
}

// Whether bytes are these.
fn print_same(rt: &impl Print, label: &[u8], bytes: &[u8], expected: &[u8]) -> io::Result<()> {
    say(rt, label)?;
    if bytes == expected {
        say(rt, b" yes\n")
    } else {
        say(rt, b" no\n")
    }
}

// A store at block 7 with one record, of slot 1, and room for three more.
fn prepare() -> [u8; STORE_SIZE]
    ensures { length result ≡ store_size 4 }
{
    let mut s = [0u8; STORE_SIZE];
    let value = U256 {
        w0: 0,
        w1: 0,
        w2: 0,
        w3: 5,
    };
    let _ = store::open(&mut s, 4, 1, Retention::Unbounded);
    let _ = store::install(&mut s, ReadAnchor::at(7));
    let _ = store::put(&mut s, ReadAnchor::at(7), slot(1), value);
    s
}

// A read at the limit.
fn read_at_limit(
    rt: &impl Print,
    label: &[u8],
    s: &mut [u8; STORE_SIZE],
    n: u64,
) -> io::Result<()> {
    let before = *s;
    print_read(rt, label, store::read(s, ReadAnchor::at(7), slot(n)))?;
    print_same(rt, b"  bytes kept:", s, &before)
}

// Another block is installed; its reads are counted anew.
fn at_next_block(rt: &impl Print, s: &mut [u8; STORE_SIZE]) -> io::Result<()> {
    let _ = store::install(s, ReadAnchor::at(8));
    print_read(
        rt,
        b"a read at another anchor:",
        store::read(s, ReadAnchor::at(8), slot(1)),
    )
}

// Accepted and served reads: all that a generation can have, but one. Then the last read, of a slot that is served or of one that is not, and more.
fn last_read(rt: &impl Print, n: u64) -> io::Result<()> {
    let mut s = prepare();
    words::write_u64(&mut s, layout::ACCEPTED_OFFSET, 4294967294);
    words::write_u64(&mut s, layout::SERVED_OFFSET, 4294967294);
    read_at_limit(rt, b"the last read:", &mut s, n)?;
    read_at_limit(rt, b"one more, of a served slot:", &mut s, 1)?;
    read_at_limit(rt, b"one more, of another slot:", &mut s, 2)?;
    read_at_limit(rt, b"one more, of a third slot:", &mut s, 3)?;
    at_next_block(rt, &mut s)
}

// A take to 103 bytes, of which the output keeps each.
fn take_short(
    rt: &impl Print,
    label: &[u8],
    s: &mut [u8; STORE_SIZE],
    anchor: ReadAnchor,
) -> io::Result<()> {
    let before = *s;
    let mut out = [46u8; 103];
    print_take(rt, label, store::take(s, anchor, &mut out))?;
    print_same(rt, b"  store kept:", s, &before)?;
    print_same(rt, b"  output kept:", &out, &[46u8; 103])
}

// A take to 160 bytes, of which the last 56 are kept.
fn take_long(rt: &impl Print, s: &mut [u8; STORE_SIZE], anchor: ReadAnchor) -> io::Result<()> {
    let mut out = [46u8; 160];
    print_take(
        rt,
        b"take of 2 slots to 160 bytes:",
        store::take(s, anchor, &mut out),
    )?;
    print_same(
        rt,
        b"  the slots, rising, then the output's own bytes:",
        &out,
        b"aaaabbbbbbbbccccccccddddddddeeeeeeeeffffffffslot0002aaaabbbbbbbbccccccccddddddddeeeeeeeeffffffffslot0003........................................................",
    )
}

// Takes of two queued slots, to outputs whose bytes are dots.
fn takes(rt: &impl Print) -> io::Result<()> {
    let anchor = ReadAnchor::at(7);
    let mut s = prepare();
    let _ = store::read(&mut s, anchor, slot(3));
    let _ = store::read(&mut s, anchor, slot(2));
    take_short(rt, b"take of 2 slots to 103 bytes:", &mut s, anchor)?;
    take_short(rt, b"take at another anchor:", &mut s, ReadAnchor::at(8))?;
    take_long(rt, &mut s, anchor)?;
    take_short(rt, b"take of none to 103 bytes:", &mut s, anchor)
}

// An answer at a block.
fn answer(
    rt: &impl Print,
    label: &[u8],
    s: &mut [u8; STORE_SIZE],
    number: u64,
    members: &[u8],
) -> io::Result<()> {
    let before = *s;
    print_answer(rt, label, store::answer(s, ReadAnchor::at(number), members))?;
    print_same(rt, b"  bytes kept:", s, &before)
}

// A failed answer at block 7.
fn answer_failed(
    rt: &impl Print,
    label: &[u8],
    s: &mut [u8; STORE_SIZE],
    slots: &[u8],
) -> io::Result<()> {
    let before = *s;
    print_answer(rt, label, store::answer_failed(s, ReadAnchor::at(7), slots))?;
    print_same(rt, b"  bytes kept:", s, &before)
}

// A read at block 7.
fn read(rt: &impl Print, label: &[u8], s: &mut [u8; STORE_SIZE], n: u64) -> io::Result<()> {
    print_read(rt, label, store::read(s, ReadAnchor::at(7), slot(n)))
}

// Takes the queue at block 7.
fn take_all(rt: &impl Print, s: &mut [u8; STORE_SIZE]) -> io::Result<()> {
    let mut out = [0u8; 3328];
    print_take(rt, b"take:", store::take(s, ReadAnchor::at(7), &mut out))
}

// Answers to slots 2 and 3 whose last bytes are no whole entry.
fn cut_answers(rt: &impl Print) -> io::Result<()> {
    let mut s = prepare();
    read(rt, b"  slot 2:", &mut s, 2)?;
    read(rt, b"  slot 3:", &mut s, 3)?;
    answer(
        rt,
        b"answer before the take:",
        &mut s,
        7,
        b"aaaabbbbbbbbccccccccddddddddeeeeeeeeffffffffslot0002\x0112345678ABCDEFGH87654321HGFEDCBA",
    )?;
    take_all(rt, &mut s)?;
    answer(
        rt,
        b"answer of 84 bytes:",
        &mut s,
        7,
        b"aaaabbbbbbbbccccccccddddddddeeeeeeeeffffffffslot0002\x0112345678ABCDEFGH87654321HGFEDCB",
    )?;
    answer_failed(
        rt,
        b"failed answer of 51 bytes:",
        &mut s,
        b"aaaabbbbbbbbccccccccddddddddeeeeeeeeffffffffslot000",
    )?;
    answer(
        rt,
        b"answer of 85 and 84 bytes:",
        &mut s,
        7,
        b"aaaabbbbbbbbccccccccddddddddeeeeeeeeffffffffslot0002\x0112345678ABCDEFGH87654321HGFEDCBAaaaabbbbbbbbccccccccddddddddeeeeeeeeffffffffslot0003\x0112345678ABCDEFGH87654321HGFEDCB",
    )?;
    read(rt, b"  slot 2:", &mut s, 2)?;
    read(rt, b"  slot 3:", &mut s, 3)?;
    answer_failed(
        rt,
        b"failed answer of 52 and 51 bytes:",
        &mut s,
        b"aaaabbbbbbbbccccccccddddddddeeeeeeeeffffffffslot0003aaaabbbbbbbbccccccccddddddddeeeeeeeeffffffffslot000",
    )?;
    read(rt, b"  slot 3:", &mut s, 3)
}

// A member's flag byte above 1 is refused before everything else.
fn unknown_flags(rt: &impl Print) -> io::Result<()> {
    let mut s = prepare();
    read(rt, b"  slot 2:", &mut s, 2)?;
    take_all(rt, &mut s)?;
    answer(
        rt,
        b"flag 2:",
        &mut s,
        7,
        b"aaaabbbbbbbbccccccccddddddddeeeeeeeeffffffffslot0002\x0212345678ABCDEFGH87654321HGFEDCBA",
    )?;
    answer(
        rt,
        b"flag 255:",
        &mut s,
        7,
        b"aaaabbbbbbbbccccccccddddddddeeeeeeeeffffffffslot0002\xff12345678ABCDEFGH87654321HGFEDCBA",
    )?;
    answer(
        rt,
        b"a slot twice:",
        &mut s,
        7,
        b"aaaabbbbbbbbccccccccddddddddeeeeeeeeffffffffslot0002\x0112345678ABCDEFGH87654321HGFEDCBAaaaabbbbbbbbccccccccddddddddeeeeeeeeffffffffslot0002\x0012345678ABCDEFGH87654321HGFEDCBA",
    )?;
    answer(
        rt,
        b"a slot twice, flag 2:",
        &mut s,
        7,
        b"aaaabbbbbbbbccccccccddddddddeeeeeeeeffffffffslot0002\x0112345678ABCDEFGH87654321HGFEDCBAaaaabbbbbbbbccccccccddddddddeeeeeeeeffffffffslot0002\x0212345678ABCDEFGH87654321HGFEDCBA",
    )?;
    answer(
        rt,
        b"at another anchor, flag 1:",
        &mut s,
        8,
        b"aaaabbbbbbbbccccccccddddddddeeeeeeeeffffffffslot0002\x0112345678ABCDEFGH87654321HGFEDCBA",
    )?;
    answer(
        rt,
        b"at another anchor, flag 2:",
        &mut s,
        8,
        b"aaaabbbbbbbbccccccccddddddddeeeeeeeeffffffffslot0002\x0212345678ABCDEFGH87654321HGFEDCBA",
    )?;
    let mut zeros = [0u8; STORE_SIZE];
    answer(
        rt,
        b"no store, flag 1:",
        &mut zeros,
        7,
        b"aaaabbbbbbbbccccccccddddddddeeeeeeeeffffffffslot0002\x0112345678ABCDEFGH87654321HGFEDCBA",
    )?;
    answer(
        rt,
        b"no store, flag 2:",
        &mut zeros,
        7,
        b"aaaabbbbbbbbccccccccddddddddeeeeeeeeffffffffslot0002\x0212345678ABCDEFGH87654321HGFEDCBA",
    )
}

// A value and a refusal, and a flag byte 2 past the last whole entry, which is none.
fn known_flags(rt: &impl Print) -> io::Result<()> {
    let mut s = prepare();
    read(rt, b"  slot 2:", &mut s, 2)?;
    read(rt, b"  slot 3:", &mut s, 3)?;
    take_all(rt, &mut s)?;
    answer(
        rt,
        b"flag 1, and 2 in no entry:",
        &mut s,
        7,
        b"aaaabbbbbbbbccccccccddddddddeeeeeeeeffffffffslot0002\x0112345678ABCDEFGH87654321HGFEDCBAaaaabbbbbbbbccccccccddddddddeeeeeeeeffffffffslot0003\x0212345678ABCDEFGH87654321HGFEDCB",
    )?;
    read(rt, b"  slot 2:", &mut s, 2)?;
    answer(
        rt,
        b"flag 0:",
        &mut s,
        7,
        b"aaaabbbbbbbbccccccccddddddddeeeeeeeeffffffffslot0003\x0012345678ABCDEFGH87654321HGFEDCBA",
    )?;
    read(rt, b"  slot 3:", &mut s, 3)
}

fn main(rt: HostRuntime) -> io::Result<()> {
    last_read(&rt, 1)?;
    last_read(&rt, 2)?;
    takes(&rt)?;
    cut_answers(&rt)?;
    unknown_flags(&rt)?;
    known_flags(&rt)
}
