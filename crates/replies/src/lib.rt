// The replies of the public calls. Each is a refusal, or what the call did.
#![tactic(auto)]

use model::delta_snapshot::CompactionReport;
use model::read_hub::CarryOutcome;
use model::refusal::Refusal;
use model::storage_memo::U256;

// An open's reply.
pub type OpenReply = Result<(), Refusal>;

// Whether an installed anchor was installed already.
#[derive(Clone, Copy, Debug, PartialEq, Eq)]
pub enum Installed {
    Same,
    Fresh,
}

// An install's reply.
pub type InstallReply = Result<Installed, Refusal>;

// A look's or a get's reply: none, or the value.
pub type LookReply = Result<Option<U256>, Refusal>;

// A put's reply.
pub type PutReply = Result<(), Refusal>;

// How many writes were applied, how many of them overwrote, and how many were skipped (`AppliedWrites`).
#[derive(Clone, Copy, Debug, PartialEq, Eq)]
pub struct WriteCounts {
    pub applied: u64,
    pub overwritten: u64,
    pub skipped: u64,
}

// An advance's report; the slots written are in its output.
#[derive(Clone, Copy, Debug, PartialEq, Eq)]
pub struct DeltaReport {
    pub outcome: CarryOutcome,
    pub writes: WriteCounts,
    pub held: usize,
    pub live: usize,
    pub compaction: CompactionReport,
}

// An advance's reply.
pub type AdvanceReply = Result<DeltaReport, Refusal>;

// What a read gave: the value, or the slot's waiters.
#[derive(Clone, Copy, Debug, PartialEq, Eq)]
pub enum ReadOutcome {
    Value(U256),
    Waiting(u64),
}

// A read's reply.
pub type ReadReply = Result<ReadOutcome, Refusal>;

// A take's reply: the number of slots listed.
pub type TakeReply = Result<u64, Refusal>;

// What an answer did: members, member errors and waiters woken.
#[derive(Clone, Copy, Debug, PartialEq, Eq)]
pub struct Answered {
    pub members: u64,
    pub errors: u64,
    pub woken: u64,
}

// An answer's reply.
pub type AnswerReply = Result<Answered, Refusal>;
