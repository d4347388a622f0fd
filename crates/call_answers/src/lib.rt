// The reply of a call of any kind, and its lines.
#![tactic(auto)]

ghost use Rattle.std.specs.Prelude.{◌≡◌, ◌+◌, ◌*◌, ◌≤◌, ℕ, List, length, Ok};
ghost use Rattle.model.specs.Entries.{first_slots};
ghost use Rattle.model.specs.Store.{listed};
ghost use Rattle.replies.specs.Replies.{install_reply, look_reply, read_reply, answer_reply, advance_reply};
ghost use Rattle.call_list.specs.Listing.{slot_lines, report_lines, answer_lines};
ghost use Rattle.digits.specs.Output.{Room, Writes};
ghost use Rattle.listing.specs.Lines.{counts_line};
ghost use Rattle.call_answers.specs.Answers.{report_of, reply_of, counts_in, slots_in, slots_listed};

use digits::Output;
use listing::AdvanceCounts;
use model::refusal::Refusal;
use model::storage_memo::U256;
use replies::{Answered, DeltaReport, Installed, ReadOutcome};

// What an accepted call reports. The slots that a take lists are in its output, and so are the writes that an advance applied.
#[derive(Clone, Copy, Debug, PartialEq, Eq)]
pub enum CallAnswer {
    Open,
    AnchorSame,
    AnchorFresh,
    Advance(DeltaReport),
    Value(U256),
    Nothing,
    Put,
    Wait(u64),
    Take(usize),
    Answer {
        members: u64,
        errors: u64,
        woken: u64,
    },
}

// A call's reply.
pub type CallReply = Result<CallAnswer, Refusal>;

// What an install reports.
impl From<Installed> for CallAnswer {
    ghost from_gives = { λ i a. (out : List ℕ) → reply_of (Ok a) out ≡ install_reply (Ok i) };

    fn from(installed: Installed) -> CallAnswer {
        match installed {
            Installed::Same => CallAnswer::AnchorSame,
            Installed::Fresh => CallAnswer::AnchorFresh,
        }
    }
}

// What a look or a get reports.
impl From<Option<U256>> for CallAnswer {
    ghost from_gives = { λ o a. (out : List ℕ) → reply_of (Ok a) out ≡ look_reply (Ok o) };

    fn from(value: Option<U256>) -> CallAnswer {
        match value {
            None => CallAnswer::Nothing,
            Some(v) => CallAnswer::Value(v),
        }
    }
}

// What a read reports.
impl From<ReadOutcome> for CallAnswer {
    ghost from_gives = { λ o a. (out : List ℕ) → reply_of (Ok a) out ≡ read_reply (Ok o) };

    fn from(outcome: ReadOutcome) -> CallAnswer {
        match outcome {
            ReadOutcome::Value(v) => CallAnswer::Value(v),
            ReadOutcome::Waiting(n) => CallAnswer::Wait(n),
        }
    }
}

// What an answer reports.
impl From<Answered> for CallAnswer {
    ghost from_gives = { λ r a. (out : List ℕ) → reply_of (Ok a) out ≡ answer_reply (Ok r) };

    fn from(answered: Answered) -> CallAnswer {
        CallAnswer::Answer {
            members: answered.members,
            errors: answered.errors,
            woken: answered.woken,
        }
    }
}

// What an advance reports.
impl From<DeltaReport> for CallAnswer {
    ghost from_gives = { λ r a. (out : List ℕ) → reply_of (Ok a) out ≡ advance_reply (Ok r) out };

    fn from(advanced: DeltaReport) -> CallAnswer {
        CallAnswer::Advance(advanced)
    }
}

// The lines of the first n slots of an output.
fn slot_lines(out: &mut Output, entries: &[u8], n: usize)
    requires { (n * 52 ≤ length entries.now) × Room (110 * n) out.old }
    ensures { Writes (slot_lines (first_slots n entries.now)) out.old out.new }
{
    for i in 0..n {
        listing::slot_line(out, reader::slot_at(entries, i * 52));
    }
}

// The lines of a take.
fn take_lines(out: &mut Output, entries: &[u8], n: usize)
    requires { (n * 52 ≤ length entries.now) × Room (26 + 110 * n) out.old }
    ensures { Writes (report_lines (listed (first_slots n entries.now))) out.old out.new }
{
    listing::word_line(out, b"take", &[n as u64]);
    slot_lines(out, entries, n);
}

// The line of an advance.
fn advance_line(out: &mut Output, report: DeltaReport)
    requires { Room 197 out.old }
    ensures { Writes (counts_line report.outcome (counts_in report)) out.old out.new }
{
    let outcome = report.outcome;
    let writes = report.writes;
    let fold = report.compaction;
    let counts = AdvanceCounts {
        applied: writes.applied as u64,
        overwritten: writes.overwritten as u64,
        skipped: writes.skipped as u64,
        held: report.held as u64,
        live: report.live as u64,
        merged: fold.merged as u64,
        left: fold.left as u64,
        dropped: fold.dropped as u64,
    };
    listing::advance_line(out, outcome, counts);
}

// The lines of an accepted call.
fn report_lines(out: &mut Output, a: CallAnswer, entries: &[u8])
    requires { (slots_in a * 52 ≤ length entries.now) × Room (197 + 110 * slots_in a) out.old }
    ensures { Writes (report_lines (report_of a entries.now)) out.old out.new }
{
    match a {
        CallAnswer::Open => listing::word_line(out, b"open", &[]),
        CallAnswer::AnchorSame => listing::word_line(out, b"anchor same", &[]),
        CallAnswer::AnchorFresh => listing::word_line(out, b"anchor fresh", &[]),
        CallAnswer::Advance(report) => advance_line(out, report),
        CallAnswer::Value(v) => listing::value_line(out, v),
        CallAnswer::Nothing => listing::word_line(out, b"none", &[]),
        CallAnswer::Put => listing::word_line(out, b"put", &[]),
        CallAnswer::Wait(n) => listing::word_line(out, b"wait", &[n]),
        CallAnswer::Take(n) => take_lines(out, entries, n),
        CallAnswer::Answer {
            members,
            errors,
            woken,
        } => listing::word_line(out, b"answer", &[members, errors, woken]),
    }
}

// The lines of a reply.
#[tactic(auto, using(listing::proofs::Lengths::refusal_line_length), unfolding(call_list::specs::Listing::answer_lines))]
pub fn answer_lines(out: &mut Output, r: CallReply, entries: &[u8])
    requires { (slots_listed r * 52 ≤ length entries.now) × Room (197 + 110 * slots_listed r) out.old }
    ensures { Writes (answer_lines (reply_of r entries.now)) out.old out.new }
{
    match r {
        Err(refusal) => listing::refusal_line(out, refusal.number()),
        Ok(a) => report_lines(out, a, entries),
    }
}
