// The lines of the listing, each written into an output of dots and compared with its bytes: words, one blank between fields, a newline, and the dots
// around it.
#![tactic(auto)]

ghost use Rattle.std.specs.Prelude.{◌≡◌, ◌≤◌, length};
ghost use Rattle.call_answers.specs.Answers.{slots_listed};

use call_answers::{CallAnswer, CallReply};
use digits::Output;
use listing::AdvanceCounts;
use model::bal_prefetch::BalSkip;
use model::delta_snapshot::Slot;
use model::read_hub::{CarryOutcome, Lineage};
use model::refusal::Refusal;
use model::storage_memo::{Address, U256};
use std::io;

fn say(rt: &impl Print, text: &[u8]) -> io::Result<()> {
    rt.write_all(text)
}

// Whether a written line and the dots around it are these bytes, and the next place is past the newline.
fn compare(
    rt: &impl Print,
    name: &[u8],
    out: &Output,
    expected: &[u8],
    end: usize,
) -> io::Result<()> {
    say(rt, name)?;
    if out.bytes.starts_with(expected) && out.at == end {
        say(rt, b": the same\n")
    } else {
        say(rt, b": other bytes\n")
    }
}

// The same of a call's reply that lists no slots.
fn reply(rt: &impl Print, name: &[u8], r: CallReply, expected: &[u8]) -> io::Result<()>
    requires { (slots_listed r ≡ 0) × (2 ≤ length expected.now) }
{
    let mut bytes = [46u8; 199];
    let mut out = Output {
        bytes: &mut bytes,
        at: 2,
    };
    call_answers::answer_lines(&mut out, r, &[]);
    compare(rt, name, &out, expected, expected.len() - 2)
}

// Lines of words alone.
fn words(rt: &impl Print) -> io::Result<()> {
    reply(rt, b"open", Ok(CallAnswer::Open), b"..open\n..")?;
    reply(
        rt,
        b"anchor same",
        Ok(CallAnswer::AnchorSame),
        b"..anchor same\n..",
    )?;
    reply(
        rt,
        b"anchor fresh",
        Ok(CallAnswer::AnchorFresh),
        b"..anchor fresh\n..",
    )?;
    reply(rt, b"none", Ok(CallAnswer::Nothing), b"..none\n..")?;
    reply(rt, b"put", Ok(CallAnswer::Put), b"..put\n..")
}

// Lines of a word and numbers.
fn numbers(rt: &impl Print) -> io::Result<()> {
    reply(rt, b"no", Err(Refusal::AnotherAnchor), b"..no 22\n..")?;
    reply(
        rt,
        b"no, one digit",
        Err(Refusal::UnknownForm),
        b"..no 3\n..",
    )?;
    reply(rt, b"wait", Ok(CallAnswer::Wait(105)), b"..wait 105\n..")?;
    let mut take = [46u8; 12];
    let mut take_out = Output {
        bytes: &mut take,
        at: 2,
    };
    listing::word_line(&mut take_out, b"take", &[64]);
    compare(rt, b"take", &take_out, b"..take 64\n..", 10)?;
    let answered = CallAnswer::Answer {
        members: 12,
        errors: 3,
        woken: 40,
    };
    reply(rt, b"answer", Ok(answered), b"..answer 12 3 40\n..")
}

// Lines of an advance.
fn advances(rt: &impl Print) -> io::Result<()> {
    let counts = AdvanceCounts {
        applied: 2,
        overwritten: 3,
        skipped: 4,
        held: 50,
        live: 6,
        merged: 7,
        left: 8,
        dropped: 18446744073709551615,
    };
    let mut current = [46u8; 17];
    let mut current_out = Output {
        bytes: &mut current,
        at: 2,
    };
    listing::advance_line(&mut current_out, CarryOutcome::AlreadyCurrent, counts);
    compare(rt, b"current", &current_out, b"..current 50 6\n..", 15)?;
    let mut carried = [46u8; 50];
    let mut carried_out = Output {
        bytes: &mut carried,
        at: 2,
    };
    listing::advance_line(&mut carried_out, CarryOutcome::Carried(1), counts);
    compare(
        rt,
        b"carried",
        &carried_out,
        b"..carried 1 2 3 4 50 6 7 8 18446744073709551615\n..",
        48,
    )?;
    let mut cold = [46u8; 24];
    let outcome = CarryOutcome::Cold {
        lineage: Lineage::ParentHashMismatch,
        bal: BalSkip::Decode,
    };
    let mut cold_out = Output {
        bytes: &mut cold,
        at: 2,
    };
    listing::advance_line(&mut cold_out, outcome, counts);
    compare(rt, b"cold", &cold_out, b"..cold 4 3 2 3 4 50 6\n..", 22)
}

fn number() -> U256 {
    U256 {
        w0: 0x0123_4567_89ab_cdef,
        w1: 0,
        w2: 0xfedc_ba98_7654_3210,
        w3: 10,
    }
}

// Lines with hex digits.
fn digits(rt: &impl Print) -> io::Result<()> {
    let mut value = [46u8; 75];
    let mut value_out = Output {
        bytes: &mut value,
        at: 2,
    };
    listing::value_line(&mut value_out, number());
    compare(
        rt,
        b"value",
        &value_out,
        b"..value 0123456789abcdef0000000000000000fedcba9876543210000000000000000a\n..",
        73,
    )?;
    let mut slot = [46u8; 114];
    let s = Slot {
        address: Address {
            w0: 0xabc,
            w1: 1,
            w2: 0xffff_ffff_ffff_ffff,
        },
        index: number(),
    };
    let mut slot_out = Output {
        bytes: &mut slot,
        at: 2,
    };
    listing::slot_line(&mut slot_out, s);
    compare(
        rt,
        b"slot",
        &slot_out,
        b"..slot 00000abc0000000000000001ffffffffffffffff0123456789abcdef0000000000000000fedcba9876543210000000000000000a\n..",
        112,
    )
}

fn main(rt: HostRuntime) -> io::Result<()> {
    words(&rt)?;
    numbers(&rt)?;
    advances(&rt)?;
    digits(&rt)
}
