// What one account gives to a seed: its changed slots with their final values, and its reads, put into outputs under a cap.
#![tactic(auto)]

ghost use Rattle.std.specs.Prelude.{◌+◌, ◌*◌, ◌/◌, ◌≤◌, length};
ghost use Rattle.bal_entries.specs.Walking.{SlotsRoom, SlotsSeeded, ReadsSeeded};

use model::delta_snapshot::Slot;
use model::storage_memo::Address;

// Where the walk over listed slots stands: the next slot, its first change, and the changed slots found.
#[derive(Clone, Copy, Debug, PartialEq, Eq)]
pub struct Spot {
    pub slot: usize,
    pub change: usize,
    pub found: usize,
}

// One listed slot of an account: if it has a change it is found, and its write is put if fewer than `most` were found before.
fn seed_slot(
    address: Address,
    slots: &[u8],
    changes: &[u8],
    most: usize,
    from: Spot,
    out: &mut [u8],
) -> Spot
    requires { SlotsRoom slots.now changes.now 1 from (length out.old) }
    ensures { SlotsSeeded address slots.now changes.now most 1 from out.old result out.new }
{
    let slot = from.slot;
    let change = from.change;
    let found = from.found;
    let count = words::read_u64(slots, slot * 40 + 32) as usize;
    let Some(value) = final_change::final_change(changes, change, count) else {
        return Spot {
            slot: slot + 1,
            change: change + count,
            found,
        };
    };
    if found < most {
        let index = entries::read_u256(slots, slot * 40);
        let changed = Slot { address, index };
        entries::write_write(out, found * 84, changed, value);
    }
    Spot {
        slot: slot + 1,
        change: change + count,
        found: found + 1,
    }
}

// The next `count` listed slots, all of one account.
pub fn seed_slots(
    address: Address,
    slots: &[u8],
    changes: &[u8],
    count: usize,
    most: usize,
    from: Spot,
    out: &mut [u8],
) -> Spot
    requires { SlotsRoom slots.now changes.now count from (length out.old) }
    ensures { SlotsSeeded address slots.now changes.now most count from out.old result out.new }
{
    let mut spot = from;
    for _ in 0..count {
        spot = seed_slot(address, slots, changes, most, spot, out);
    }
    spot
}

// The next `count` listed reads, all of one account, of which `found` were found before; each is put if fewer than `most` were found before it.
pub fn seed_reads(
    address: Address,
    reads: &[u8],
    from: usize,
    count: usize,
    most: usize,
    found: usize,
    out: &mut [u8],
)
    requires { (from + count ≤ length reads.now / 32) × (found ≤ from) × (length reads.now / 32 * 52 ≤ length out.old) }
    ensures { ReadsSeeded address reads.now most from count found out.old out.new }
{
    for i in 0..count {
        if found + i < most {
            let index = entries::read_u256(reads, (from + i) * 32);
            let read = Slot { address, index };
            entries::write_slot(out, (found + i) * 52, read);
        }
    }
}
