// The run of a call list: its calls one after the other, and their lines. docs/REFERENCE.md describes it.
#![tactic(auto)]

ghost use Rattle.std.specs.Prelude.{◌≡◌, false, None, ◌+◌, ◌*◌, ◌/◌, ◌≤◌, ◌<◌, length};
ghost use Rattle.call_progress.specs.Progress.{call_lines};
ghost use Rattle.call_run.specs.Run.{LinesFit, too_short, RanAs};
ghost use Rattle.call_run.specs.Inner.{RunAt, RunOn};
ghost use Rattle.call_run.specs.Program.{ProgramPrints};

pub use call_progress::CALL_LINES;
use call_progress::Progress;
use digits::Output;
use model::refusal::Refusal;
use reader::{Cursor, Fault, Reader};

// Where a run stopped: the place of the next call, the bytes written and whether the list has ended; or the fault that ended the list, its place and the bytes written.
#[derive(Clone, Copy, Debug, PartialEq, Eq)]
pub enum RunEnd {
    Listed {
        next: Cursor,
        written: usize,
        ended: bool,
    },
    Broken {
        fault: u64,
        place: Cursor,
        written: usize,
    },
}

// Refused by 9 alone.
pub type RunReply = Result<RunEnd, Refusal>;

// One call and its lines.
fn run_call(
    list: &[u8],
    t: Progress,
    s: &mut [u8],
    work: &mut [u8],
    entries: &mut [u8],
    members: &mut [u8],
    out: &mut [u8],
) -> Progress
    requires { RunAt t list.now s.old out.old × (t.ended ≡ false) × (t.at + call_lines ≤ length out.old) × (length list.now / 53 * 85 ≤ length members.old) }
    ensures run { RunOn (length work.old) (length entries.old / 52) list.now t s.old out.old result s.new out.new }
    ensures forward { (t.next < result.next) × (result.next ≤ length list.now) }
{
    let mut from = Reader { list, at: t.next };
    let mut lines = Output {
        bytes: out,
        at: t.at,
    };
    match call_reader::read_call(&mut from) {
        Ok(call) => {
            let reply = call_steps::step(list, call, t.known, s, work, entries, members);
            call_answers::answer_lines(&mut lines, reply, entries);
            call_progress::after_call(list, t, reply, Cursor { at: from.at }, lines.at)
        }
        Err(kind) => {
            listing::refusal_line(&mut lines, u64::from(kind));
            let place = Cursor { at: from.at };
            call_progress::after_fault(list, t, Fault { kind, place }, lines.at)
        }
    }
}

// The calls of a list from a place on, one after the other, as long as the output has room for a call's lines.
fn run_calls(
    list: &[u8],
    first: Progress,
    s: &mut [u8],
    work: &mut [u8],
    entries: &mut [u8],
    members: &mut [u8],
    out: &mut [u8],
) -> Progress
    requires { RunAt first list.now s.old out.old × (first.fault ≡ None) × (length list.now / 53 * 85 ≤ length members.old) }
    ensures run { RunOn (length work.old) (length entries.old / 52) list.now first s.old out.old result s.new out.new }
    ensures room { result.ended ≡ false → length out.old < result.at + call_lines }
{
    let mut t = first;
    while call_progress::goes_on(t, out) {
        t = run_call(list, t, s, work, entries, members, out);
    }
    t
}

// Whether a lent area is too short: the output for one call's lines, or the area for an answer's members.
fn too_short(list: &[u8], members: &[u8], out: &[u8]) -> bool
    ensures { result ≡ too_short list.now members.now out.now }
{
    out.len() < CALL_LINES || members.len() < list.len() / 53 * 85
}

// Runs a call list from a place on, until it ends, at a fault, or where the output has no room for another call's lines. The bytes are checked once. What `work`, `entries` and `members` hold after it is free.
pub fn run(
    list: &[u8],
    from: Cursor,
    s: &mut [u8],
    work: &mut [u8],
    entries: &mut [u8],
    members: &mut [u8],
    out: &mut [u8],
) -> RunReply
    ensures { RanAs result (length work.old) (length entries.old / 52) list.now from.at members.old s.old out.old s.new out.new }
{
    if too_short(list, members, out) {
        return Err(Refusal::LentTooShort);
    }
    let first = Progress {
        next: from.at,
        at: 0,
        known: check_store::is_store(s),
        ended: list.len() <= from.at,
        fault: None,
    };
    let last = run_calls(list, first, s, work, entries, members, out);
    if let Some(fault) = last.fault {
        return Ok(RunEnd::Broken {
            fault: u64::from(fault.kind),
            place: fault.place,
            written: last.at,
        });
    }
    Ok(RunEnd::Listed {
        next: Cursor { at: last.next },
        written: last.at,
        ended: last.ended,
    })
}

// Every call's lines fit in `CALL_LINES` bytes. The contract is what is claimed, so that the gate fails without the proof.
pub fn lines_fit()
    ensures { LinesFit }
{}

// What runs of the program `calls` write is its output by the definition, pinned likewise.
pub fn program_prints()
    ensures { ProgramPrints }
{}
