// Entries of lists in bytes, read and written at a place: addresses (20 bytes), 32-byte numbers, slots (52) and writes (84).
#![tactic(auto)]

ghost use Rattle.std.specs.Prelude.{◌≡◌, ◌+◌, ◌≤◌, length, drop};
ghost use Rattle.model.specs.Numbers.{be};
ghost use Rattle.model.specs.Slots.{address_eqb};
ghost use Rattle.model.specs.Advance.{relevant};
ghost use Rattle.model.specs.Entries.{u256_at, address_of, slot_of, addresses_of, slot_bytes};
ghost use Rattle.words.specs.Parts.{placed};
ghost use Rattle.entries.specs.Bytes.{address_bytes, u256_bytes, write_bytes};

use model::delta_snapshot::Slot;
use model::storage_memo::{Address, U256};

// The 32-byte number at `at`.
pub fn read_u256(s: &[u8], at: usize) -> U256
    requires { at + 32 ≤ length s.now }
    ensures { result ≡ u256_at at s.now }
{
    U256 {
        w0: words::read_u64(s, at),
        w1: words::read_u64(s, at + 8),
        w2: words::read_u64(s, at + 16),
        w3: words::read_u64(s, at + 24),
    }
}

// The address at `at`.
pub fn read_address(s: &[u8], at: usize) -> Address
    requires { at + 20 ≤ length s.now }
    ensures { result ≡ address_of (drop at s.now) }
{
    Address {
        w0: words::read_u32(s, at),
        w1: words::read_u64(s, at + 4),
        w2: words::read_u64(s, at + 12),
    }
}

// The slot at `at`.
pub fn read_slot(s: &[u8], at: usize) -> Slot
    requires { at + 52 ≤ length s.now }
    ensures { result ≡ slot_of (drop at s.now) }
{
    Slot {
        address: read_address(s, at),
        index: read_u256(s, at + 20),
    }
}

// Whether the address at `at` is the given one. Compared in place, the last word first: most addresses that differ do so there.
pub fn is_address(s: &[u8], at: usize, address: Address) -> bool
    requires { at + 20 ≤ length s.now }
    ensures { result ≡ address_eqb (address_of (drop at s.now)) address }
{
    if words::read_u64(s, at + 12) != address.w2 {
        return false;
    }
    if words::read_u64(s, at + 4) != address.w1 {
        return false;
    }
    words::read_u32(s, at) == address.w0
}

// Whether an address is on a list of them, 20 bytes each.
pub fn names_address(list: &[u8], address: Address) -> bool
    ensures { result ≡ relevant (addresses_of list.now) address }
{
    list.chunks_exact(20)
        .any(|entry| is_address(entry, 0, address))
}

// The four bytes of x at `at`.
fn write_u32(s: &mut [u8], at: usize, x: u32)
    requires { at + 4 ≤ length s.old }
    ensures { s.new ≡ placed at (be 4 x) s.old }
{
    s[at..at + 4].copy_from_slice(&x.to_be_bytes());
}

// The bytes of an address at `at`.
pub fn write_address(s: &mut [u8], at: usize, a: Address)
    requires { at + 20 ≤ length s.old }
    ensures { s.new ≡ placed at (address_bytes a) s.old }
{
    write_u32(s, at, a.w0);
    words::write_u64(s, at + 4, a.w1);
    words::write_u64(s, at + 12, a.w2);
}

// The bytes of a 32-byte number at `at`.
pub fn write_u256(s: &mut [u8], at: usize, x: U256)
    requires { at + 32 ≤ length s.old }
    ensures { s.new ≡ placed at (u256_bytes x) s.old }
{
    words::write_u64(s, at, x.w0);
    words::write_u64(s, at + 8, x.w1);
    words::write_u64(s, at + 16, x.w2);
    words::write_u64(s, at + 24, x.w3);
}

// The bytes of a slot at `at`.
pub fn write_slot(s: &mut [u8], at: usize, slot: Slot)
    requires { at + 52 ≤ length s.old }
    ensures { s.new ≡ placed at (slot_bytes slot) s.old }
{
    write_address(s, at, slot.address);
    write_u256(s, at + 20, slot.index);
}

// The bytes of a write at `at`: a slot and its value.
pub fn write_write(s: &mut [u8], at: usize, slot: Slot, value: U256)
    requires { at + 84 ≤ length s.old }
    ensures { s.new ≡ placed at (write_bytes (record { slot = slot; value = value })) s.old }
{
    write_slot(s, at, slot);
    write_u256(s, at + 52, value);
}
