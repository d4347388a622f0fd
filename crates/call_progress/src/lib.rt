// Where a run of a call list is, from call to call.
#![tactic(auto)]

ghost use Rattle.std.specs.Prelude.{◌≡◌, ◌≤◌, length};
ghost use Rattle.call_progress.specs.Progress.{store_after, called_at, broken_at, goes_on};

use call_answers::{CallAnswer, CallReply};
use reader::{Cursor, Fault};

// The room for a call's lines: 197 bytes, and 110 for each of the 64 slots that a take lists at most.
pub const CALL_LINES: usize = 7237;

// Where a run is: the next call's place in the list, the next line's in the output, whether the bytes are a store, whether the list has ended, and the fault that ended it, if one did.
#[derive(Clone, Copy, Debug, PartialEq, Eq)]
pub struct Progress {
    pub next: usize,
    pub at: usize,
    pub known: bool,
    pub ended: bool,
    pub fault: Option<Fault>,
}

// Whether the bytes are a store after a call.
fn known_after(known: bool, r: CallReply) -> bool
    ensures { result ≡ store_after known r }
{
    match r {
        Ok(CallAnswer::Open) => true,
        _ => known,
    }
}

// After a call with its reply, the place of the next call and that of the next line.
pub fn after_call(list: &[u8], t: Progress, r: CallReply, next: Cursor, at: usize) -> Progress
    ensures { result ≡ called_at list.now t r next.at at }
{
    Progress {
        next: next.at,
        at,
        known: known_after(t.known, r),
        ended: list.len() <= next.at,
        fault: None,
    }
}

// After a fault, which ends the list, and the place of the next line.
pub fn after_fault(list: &[u8], t: Progress, fault: Fault, at: usize) -> Progress
    ensures { result ≡ broken_at list.now t fault at }
{
    Progress {
        next: list.len(),
        at,
        known: t.known,
        ended: true,
        fault: Some(fault),
    }
}

// Whether a run goes on: the list has not ended, and the output has room for the lines of another call.
pub fn goes_on(t: Progress, out: &[u8]) -> bool
    requires { t.at ≤ length out.now }
    ensures { result ≡ goes_on t out.now }
{
    !t.ended && CALL_LINES <= out.len() - t.at
}
