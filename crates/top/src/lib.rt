// The top's records: room for a record, and a record set.
#![tactic(auto)]

ghost use Rattle.std.specs.Prelude.{◌≡◌, leb};
ghost use Rattle.model.specs.Layers.{record_count, insert, settle};
ghost use Rattle.model.specs.Store.{chain, touched_top};
ghost use Rattle.image.specs.Image.{overlay};
ghost use Rattle.image.specs.Lent.{store_of, generation_of};
ghost use Rattle.records.specs.Records.{count_after};
ghost use Rattle.top.specs.Top.{topped, Placed};

use layers::LentGeneration;
use model::delta_snapshot::{Content, Slot};
use model::storage_memo::U256;
use records::Found;

// Whether there is room for the record at a place.
pub fn has_room(generation: LentGeneration, place: Found) -> bool
    ensures { result ≡ leb (count_after place (record_count (chain (generation_of generation.entry.bytes.now)))) (store_of generation.entry.bytes.now).config.capacity }
{
    let b = generation.bytes;
    match place {
        Ok(_) => true,
        Err(_) => words::read_u64(b, layout::RECORDS_COUNT_OFFSET) + 1
            <= words::read_u64(b, layout::CAPACITY_OFFSET),
    }
}

// Sets the last use of a slot's record in the top to the installed number.
pub fn touch_top(s: &mut [u8], place: Found, slot: Slot)
    requires { Placed place slot s.old }
    ensures { s.new ≡ overlay (topped (store_of s.old).config (generation_of s.old) (touched_top (generation_of s.old) slot)) s.old }
{
    let generation = LentGeneration { bytes: s };
    let number = generation.installed_number();
    let n = generation.top_count();
    let start = generation.top_start();
    let at = layout::RECORDS_OFFSET + layout::RECORD_SIZE * start;
    let count = records::touch(&mut s[at..], n, place, slot, number);
    words::write_u64(s, layout::RECORDS_COUNT_OFFSET, (start + count) as u64);
}

// Sets a slot's record in the top to a content.
pub fn set_top(s: &mut [u8], place: Found, slot: Slot, c: Content)
    requires { Placed place slot s.old }
    ensures { s.new ≡ overlay (topped (store_of s.old).config (generation_of s.old) (insert slot c (generation_of s.old).top)) s.old }
{
    let generation = LentGeneration { bytes: s };
    let n = generation.top_count();
    let start = generation.top_start();
    let at = layout::RECORDS_OFFSET + layout::RECORD_SIZE * start;
    let total = records::set(&mut s[at..], n, place, slot, c);
    words::write_u64(s, layout::RECORDS_COUNT_OFFSET, (start + total) as u64);
}

// Sets a slot's record in the top to a value and the installed number.
pub fn settle_top(s: &mut [u8], place: Found, slot: Slot, value: U256)
    requires { Placed place slot s.old }
    ensures { s.new ≡ overlay (topped (store_of s.old).config (generation_of s.old) (settle (generation_of s.old).anchor.number slot value (generation_of s.old).top)) s.old }
{
    let generation = LentGeneration { bytes: s };
    let c = Content {
        used: generation.installed_number(),
        held: Some(value),
    };
    set_top(s, place, slot, c);
}
