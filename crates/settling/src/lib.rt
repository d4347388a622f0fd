// The values of an answer's members put to the top of a store.
#![tactic(auto)]

ghost use Rattle.std.specs.Prelude.{◌≡◌, ◌≤◌, ◌∷◌, length};
ghost use Rattle.model.specs.Layers.{record_count};
ghost use Rattle.model.specs.Reads as reads;
ghost use Rattle.model.specs.Entries.{member_of, members_of};
ghost use Rattle.image.specs.Lent.{store_of, generation_of, Installed as HasGeneration};
ghost use Rattle.settling.specs.Settling.{adds_one, added as added-by, Settled};

use layers::LentGeneration;

// Whether a member of a lent answer gives a value to a slot that has no record in the top.
#[tactic(auto, using(crate::proofs::Members::adds_absent))]
fn is_new(generation: LentGeneration, member: &[u8]) -> bool
    requires { length member.now ≡ 85 }
    ensures { result ≡ adds_one (member_of member.now) (generation_of generation.entry.bytes.now).top }
{
    member[52] != 0 && generation.top_place(entries::read_slot(member, 0)).is_err()
}

// The records that the members of a lent answer to distinct slots add.
pub fn added(generation: LentGeneration, list: &[u8]) -> usize
    ensures { result ≡ added-by (members_of list.now) (generation_of generation.entry.bytes.now).top }
{
    list.chunks_exact(85)
        .filter(|member| is_new(generation, member))
        .count()
}

// Puts the value of a member of a lent answer, if it has one.
fn settle(s: &mut [u8], member: &[u8])
    requires { HasGeneration s.old × (length member.now ≡ 85) × (record_count (reads.settle_outcome (generation_of s.old).anchor.number (member_of member.now).slot (member_of member.now).outcome (generation_of s.old).top ∷ (generation_of s.old).base) ≤ (store_of s.old).config.capacity) }
    ensures { Settled s.new s.old (reads.settle_outcome (generation_of s.old).anchor.number (member_of member.now).slot (member_of member.now).outcome (generation_of s.old).top) }
{
    if member[52] == 0 {
        return;
    }
    let slot = entries::read_slot(member, 0);
    let value = entries::read_u256(member, 53);
    let place = LentGeneration { bytes: s }.top_place(slot);
    top::settle_top(s, place, slot, value);
}

// Puts the values of the members of a lent answer.
pub fn settle_members(s: &mut [u8], list: &[u8])
    requires { HasGeneration s.old × (record_count (reads.settle_members (generation_of s.old).anchor.number (members_of list.now) (generation_of s.old).top ∷ (generation_of s.old).base) ≤ (store_of s.old).config.capacity) }
    ensures { Settled s.new s.old (reads.settle_members (generation_of s.old).anchor.number (members_of list.now) (generation_of s.old).top) }
{
    for member in list.chunks_exact(85) {
        settle(s, member);
    }
}
