// The writes of an advance, applied to the top of a store.
#![tactic(auto)]

ghost use Rattle.std.specs.Prelude.{◌≡◌, true, cond, ◌+◌, ◌*◌, ◌/◌, ◌^◌, ◌≤◌, ◌<◌, length, drop, None, Some};
ghost use Rattle.model.specs.Contents.{valued_use};
ghost use Rattle.model.specs.Layers.{find, freshest_use, insert};
ghost use Rattle.model.specs.Advance.{relevant, unserved_kind, write_kind, final_write_kind};
ghost use Rattle.model.specs.Entries.{u256_at, address_of, slot_of, addresses_of};
ghost use Rattle.image.specs.Lent.{store_of, generation_of, Installed};
ghost use Rattle.records.specs.Records.{place_in};
ghost use Rattle.seed.specs.Rising.{address_ltb, Rise, RiseIf, bucket_of, Noted, Indexed};
ghost use Rattle.seed.specs.Writes.{kind_of, applied_kind, Settled, Wrote, count_one, SeededAs};

use layers::LentGeneration;
use model::delta_snapshot::{Content, Slot};
use model::storage_memo::{Address, U256};
use records::Found;
use replies::WriteCounts;

// What a write does: sets a served slot, whose last use is kept; sets one that is not served; nothing.
#[derive(Clone, Copy, Debug, PartialEq, Eq)]
pub enum WriteKind {
    Overwrite(u64),
    New,
    Skip,
}

// Whether the address at `at` comes before the given one.
#[tactic(auto, using(std::proofs::lemmas::Bool::Decides::nat_tests), unfolding(crate::specs::Rising::address_ltb, model::specs::Slots::words_ltb))]
fn address_before(addresses: &[u8], at: usize, address: Address) -> bool
    requires { at + 20 ≤ length addresses.now }
    ensures { result ≡ address_ltb (address_of (drop at addresses.now)) address }
{
    entries::read_address(addresses, at) < address
}

// Whether the addresses rise.
fn rises(addresses: &[u8]) -> bool
    ensures { RiseIf result addresses.now }
{
    (1..addresses.len() / 20).all(|i| {
        let previous = entries::read_address(addresses, (i - 1) * 20);
        !address_before(addresses, i * 20, previous)
    })
}

// Whether an address is on a list that rises, by halves.
fn relevant_rising(addresses: &[u8], address: Address) -> bool
    requires { Rise addresses.now }
    ensures { result ≡ relevant (addresses_of addresses.now) address }
{
    let (list, _) = addresses.as_chunks::<20>();
    let place = list.partition_point(|entry| address_before(entry, 0, address));
    place < list.len() && entries::is_address(&list[place], 0, address)
}

// The slot of write i.
pub fn write_slot_of(writes: &[u8], i: usize) -> Slot
    requires { (i + 1) * 84 ≤ length writes.now }
    ensures { result ≡ slot_of (drop (i * 84) writes.now) }
{
    entries::read_slot(writes, i * 84)
}

// The value of write i.
#[tactic(auto, using(entries::proofs::Numbers::u256_in))]
pub fn write_value_of(writes: &[u8], i: usize) -> U256
    requires { (i + 1) * 84 ≤ length writes.now }
    ensures { result ≡ u256_at 52 (drop (i * 84) writes.now) }
{
    entries::read_u256(writes, i * 84 + 52)
}

// The bucket of an address.
fn bucket(address: Address) -> usize
    ensures { result ≡ bucket_of address }
{
    (address.w2 % 65536) as usize
}

// Notes in each address's bucket a place of the list, from 1 on; of several that share a bucket the last.
fn note(addresses: &[u8], table: &mut [u16])
    requires { length table.old ≡ 65536 }
    ensures { Noted (length addresses.now / 20) table.new addresses.now }
{
    for i in 0..addresses.len() / 20 {
        let b = bucket(entries::read_address(addresses, i * 20));
        table[b] = (i % 65535 + 1) as u16;
    }
}

// The addresses that are relevant: their list, a table of their buckets, and whether they rise.
#[derive(Clone, Copy)]
struct Relevance<'a> {
    addresses: &'a [u8],
    table: &'a [u16],
    rise: bool,
    ghost indexed: { Indexed rise table.now addresses.now },
}

impl<'a> Relevance<'a> {
    // Whether an address is on the list, by a search: by halves where they rise.
    fn finds(self, address: Address) -> bool
        ensures { result ≡ relevant (addresses_of self.entry.addresses.now) address }
    {
        if self.rise {
            return relevant_rising(self.addresses, address);
        }
        entries::names_address(self.addresses, address)
    }

    // Whether an address is on the list, by the place that its bucket notes; by a search where another address has it.
    fn contains(self, address: Address) -> bool
        ensures { result ≡ relevant (addresses_of self.entry.addresses.now) address }
    {
        let k = usize::from(self.table[bucket(address)]);
        if k == 0 {
            return false;
        }
        if k <= self.addresses.len() / 20 {
            if entries::is_address(self.addresses, (k - 1) * 20, address) {
                return true;
            }
        }
        self.finds(address)
    }

    // What a write does to a slot that is not served.
    fn unserved(self, address: Address) -> WriteKind
        ensures { kind_of result ≡ unserved_kind (relevant (addresses_of self.entry.addresses.now) address) }
    {
        if self.contains(address) {
            WriteKind::New
        } else {
            WriteKind::Skip
        }
    }
}

// What a write does to a slot that the top has no value of.
fn base_kind(generation: LentGeneration, relevance: Relevance, slot: Slot) -> WriteKind
    ensures { kind_of result ≡ write_kind (store_of generation.entry.bytes.now).config.retention (generation_of generation.entry.bytes.now).anchor.number (relevant (addresses_of relevance.entry.addresses.now) slot.address) (freshest_use slot (generation_of generation.entry.bytes.now).base) }
{
    let used = generation.freshest_use(generation.layers(), slot);
    let Some(u) = used else {
        return relevance.unserved(slot.address);
    };
    let retention = generation.retention();
    if retention.serves(u, generation.installed_number()) {
        return WriteKind::Overwrite(u);
    }
    relevance.unserved(slot.address)
}

// What a write does, by the slot's place in the top: a slot that the top has a value of was written earlier, and its use is kept.
fn kind(generation: LentGeneration, relevance: Relevance, place: Found, slot: Slot) -> WriteKind
    requires { place ≡ place_in slot (generation_of generation.bytes.now).top }
    ensures { kind_of result ≡ final_write_kind (store_of generation.entry.bytes.now).config.retention (generation_of generation.entry.bytes.now).anchor.number (relevant (addresses_of relevance.entry.addresses.now) slot.address) (valued_use (find slot (generation_of generation.entry.bytes.now).top)) (freshest_use slot (generation_of generation.entry.bytes.now).base) }
{
    match generation.top_valued_use(place) {
        None => base_kind(generation, relevance, slot),
        Some(u) => WriteKind::Overwrite(u),
    }
}

// Sets a slot's record in the top, which stands or goes at `place`, to a content if there is room for it; whether there is.
fn set_if_room(s: &mut [u8], place: Found, slot: Slot, c: Content) -> bool
    requires { Installed s.old × (place ≡ place_in slot (generation_of s.old).top) }
    ensures { Settled result s.new (insert slot c (generation_of s.old).top) s.old }
{
    if !top::has_room(LentGeneration { bytes: s }, place) {
        return false;
    }
    top::set_top(s, place, slot, c);
    true
}

// Applies one write to the top: what it did. Where there is no room for its record it is none, and the bytes stay.
fn apply(s: &mut [u8], relevance: Relevance, slot: Slot, value: U256) -> Option<WriteKind>
    requires { Installed s.old }
    ensures { Wrote result s.new s.old relevance.entry.addresses.now slot value }
{
    let generation = LentGeneration { bytes: s };
    let place = generation.top_place(slot);
    let what = kind(generation, relevance, place, slot);
    let number = generation.installed_number();
    match what {
        WriteKind::Overwrite(u) => {
            let c = Content {
                used: u,
                held: Some(value),
            };
            set_if_room(s, place, slot, c).then_some(what)
        }
        WriteKind::New => {
            let c = Content {
                used: number,
                held: Some(value),
            };
            set_if_room(s, place, slot, c).then_some(what)
        }
        WriteKind::Skip => Some(what),
    }
}

// Counts one write more.
fn count(counts: &mut WriteCounts, what: WriteKind)
    requires { (counts.old.applied + 1 < 2 ^ 64) × (counts.old.overwritten + 1 < 2 ^ 64) × (counts.old.skipped + 1 < 2 ^ 64) }
    ensures { counts.new ≡ count_one (kind_of what) counts.old }
{
    match what {
        WriteKind::Overwrite(_) => {
            counts.applied += 1;
            counts.overwritten += 1;
        }
        WriteKind::New => counts.applied += 1,
        WriteKind::Skip => counts.skipped += 1,
    }
}

// Applies the writes of a list in order, with what is known of the addresses: their counts, or none where there is no room.
fn seed_by(s: &mut [u8], relevance: Relevance, writes: &[u8]) -> Option<WriteCounts>
    requires { Installed s.old }
    ensures { SeededAs result s.new s.old relevance.entry.addresses.now writes.now }
{
    let mut counts = WriteCounts {
        applied: 0,
        overwritten: 0,
        skipped: 0,
    };
    for i in 0..writes.len() / 84 {
        let slot = write_slot_of(writes, i);
        let value = write_value_of(writes, i);
        let what = apply(s, relevance, slot, value)?;
        count(&mut counts, what);
    }
    Some(counts)
}

// Applies the writes of a list in order (`seed_final_writes`): their counts. Where there is no room they are none, and the bytes are left half way.
pub fn seed_final_writes(s: &mut [u8], addresses: &[u8], writes: &[u8]) -> Option<WriteCounts>
    requires { Installed s.old }
    ensures { SeededAs result s.new s.old addresses.now writes.now }
{
    let rise = rises(addresses);
    let mut table = [0u16; 65536];
    note(addresses, &mut table);
    let relevance = Relevance {
        addresses,
        table: &table,
        rise,
    };
    seed_by(s, relevance, writes)
}
