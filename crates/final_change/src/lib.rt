// The final change of a slot: of the changes that a block access list has for it, the last listed.
#![tactic(auto)]

ghost use Rattle.std.specs.Prelude.{◌≡◌, ◌+◌, ◌/◌, ◌≤◌, length, take, drop};
ghost use Rattle.final_change.specs.Changes.{changes_in, final_change};
ghost use Rattle.final_change.specs.Eip7928.{FinalIsHighest};

use model::storage_memo::U256;

// The value of the final change of a slot that has `count` changes from `from` on, the last listed; none where it has no change.
pub fn final_change(changes: &[u8], from: usize, count: usize) -> Option<U256>
    requires { from + count ≤ length changes.now / 40 }
    ensures { result ≡ final_change (take count (drop from (changes_in changes.now))) }
{
    if count == 0 {
        return None;
    }
    let last = from + count - 1;
    Some(entries::read_u256(changes, last * 40 + 8))
}

// Of changes listed as EIP-7928 lists them, the last is the one with the highest index. The contract is what is claimed, so that the gate fails without the proof.
pub fn claims()
    ensures { FinalIsHighest }
{}
