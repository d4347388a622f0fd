// delta_snapshot.rs: slots, what a record holds, the retention of values, and what a fold did.
ghost use Rattle.std.specs.Prelude.{◌≡◌, cond, eqb, Some};
ghost use Rattle.model.specs.Slots.{serves};
ghost use Rattle.model.specs.Contents.{touch};

use crate::storage_memo::{Address, U256};

// The depth limit of an open that names none.
pub const DEFAULT_MAX_DEPTH: u64 = 8;

// One word of one account's storage.
#[derive(Clone, Copy, Debug, PartialEq, Eq, PartialOrd, Ord)]
pub struct Slot {
    pub address: Address,
    pub index: U256,
}

// What a record holds: its last use, and its value or none.
#[derive(Clone, Copy, Debug, PartialEq, Eq)]
pub struct Content {
    pub used: u64,
    pub held: Option<U256>,
}

impl Content {
    // The content after a use at `now`: the value stays.
    pub fn touch(self, now: u64) -> Content
        ensures { result ≡ touch now (Some self) }
    {
        let held = self.held;
        Content { used: now, held }
    }
}

// What a fold did: layers merged, slots left, slots dropped.
#[derive(Clone, Copy, Debug, PartialEq, Eq)]
pub struct CompactionReport {
    pub merged: usize,
    pub left: usize,
    pub dropped: usize,
}

// How long a slot stays served without a use.
#[derive(Clone, Copy, Debug, PartialEq, Eq)]
pub enum Retention {
    Unbounded,
    IdleBlocks(u64),
}

impl Retention {
    // The retention of an open that names none.
    pub const DEFAULT: Retention = Retention::Unbounded;

    // The retention of a flag, 0 or another, and its blocks.
    pub fn of_words(bounded: u64, idle: u64) -> Retention
        ensures { result ≡ cond (eqb bounded 0) Retention.Unbounded (Retention.IdleBlocks idle) }
    {
        if bounded == 0 {
            Retention::Unbounded
        } else {
            Retention::IdleBlocks(idle)
        }
    }

    // Whether a slot last used at `last_used` is served at `now`.
    pub fn serves(self, last_used: u64, now: u64) -> bool
        ensures { result ≡ serves self last_used now }
    {
        match self {
            Retention::Unbounded => true,
            Retention::IdleBlocks(idle) => {
                if now <= last_used {
                    true
                } else {
                    now - last_used <= idle
                }
            }
        }
    }
}
