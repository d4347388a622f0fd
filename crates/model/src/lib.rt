// The types that the store's code and its definitions share. Modules are named as the source's files; `refusal` is of no source file.
#![tactic(auto)]

ghost use Rattle.std.specs.Prelude.{◌≡◌, length};
ghost use Rattle.model.specs.Demand3.{Demand3};
ghost use Rattle.model.specs.Cases.{table, TwelveCases};
ghost use Rattle.model.specs.Witness.{Witness};

pub mod bal_prefetch;
pub mod delta_snapshot;
pub mod read_hub;
pub mod refusal;
pub mod storage_memo;

// Demand 3 of the store on its definitions, and that its first part is not vacuous. The contract is the theorem, so that the gate fails without its proof.
pub fn demand_3()
    ensures { Demand3 × Witness }
{}

// How many cases the table has; the contract is that all of them hold.
pub fn twelve_cases() -> usize
    ensures { TwelveCases × (result ≡ length table) }
{
    12
}
