// The plan of final writes (`BalPlan` of bal_prefetch.rs): which accounts it admits, and its caps. A cap is the largest number of entries, or none.
#![tactic(auto)]

ghost use Rattle.std.specs.Prelude.{◌≡◌};
ghost use Rattle.model.specs.Entries.{addresses_of};
ghost use Rattle.bal_plan.specs.Plan.{admits_from, limit_of};

use model::storage_memo::Address;

// The largest number of entries that a cap lets through.
pub fn limit(cap: Option<u64>) -> usize
    ensures { result ≡ limit_of cap }
{
    cap.map_or(usize::MAX, |n| n as usize)
}

// A plan as it is lent: its addresses, 20 bytes each, and its caps.
#[derive(Clone, Copy)]
pub struct Plan<'a> {
    pub addresses: &'a [u8],
    pub max_writes: Option<u64>,
    pub max_reads: Option<u64>,
}

impl<'a> Plan<'a> {
    // Whether the plan admits an account: it names no address, or its own.
    #[tactic(auto, using(crate::proofs::Admitting::admits_all, crate::proofs::Admitting::admits_named))]
    pub fn admits(self, address: Address) -> bool
        ensures { result ≡ admits_from (addresses_of self.entry.addresses.now) address }
    {
        self.addresses.len() < 20 || entries::names_address(self.addresses, address)
    }
}
