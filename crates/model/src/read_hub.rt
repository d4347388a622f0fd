// read_hub.rs: the outcome of an advance, and the totals of a generation's reads.
ghost use Rattle.std.specs.Prelude.{◌≡◌};
ghost use Rattle.model.specs.Advance.{lineage_number};

use crate::bal_prefetch::BalSkip;

// How a child stands to the installed anchor: linked, or the reason why not (the source's `CarryRefusal`).
#[derive(Clone, Copy, Debug, PartialEq, Eq)]
pub enum Lineage {
    Linked,
    NoParent,
    NotConsecutive,
    ParentHashUnknown,
    ParentHashMismatch,
}

// Document 01's number of a lineage.
impl From<Lineage> for u64 {
    ghost from_gives = { λ lineage n. n ≡ lineage_number lineage };

    fn from(lineage: Lineage) -> u64 {
        match lineage {
            Lineage::Linked => 0,
            Lineage::NoParent => 1,
            Lineage::NotConsecutive => 2,
            Lineage::ParentHashUnknown => 3,
            Lineage::ParentHashMismatch => 4,
        }
    }
}

// What an advance did.
#[derive(Clone, Copy, Debug, PartialEq, Eq)]
pub enum CarryOutcome {
    AlreadyCurrent,
    Carried(u64),
    Cold { lineage: Lineage, bal: BalSkip },
}

// The running totals of a generation's reads.
#[derive(Clone, Copy, Debug, PartialEq, Eq)]
pub struct ReadTotals {
    pub accepted: u64,
    pub served: u64,
    pub waiting: u64,
    pub valued: u64,
    pub refused: u64,
    pub rounds: u64,
    pub members: u64,
    pub errors: u64,
    pub coalesced: u64,
}
