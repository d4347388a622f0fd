// The layers of a store's generation: its header, and a slot's last use and value searched from a layer down.
#![tactic(auto)]

ghost use Rattle.std.specs.Prelude.{◌≡◌, true, ◌+◌, ◌*◌, ◌≤◌, ◌<◌, length, drop, is_some};
ghost use Rattle.layout.specs.Layout.{record_size, records_offset};
ghost use Rattle.model.specs.declared.delta_snapshot.Slot.{Slot};
ghost use Rattle.model.specs.Contents.{use_of, has_value, valued_use};
ghost use Rattle.model.specs.Layers.{find, held_value, freshest_use, record_count};
ghost use Rattle.model.specs.Store.{chain, resolved};
ghost use Rattle.image.specs.WellFormed.{rising};
ghost use Rattle.image.specs.Area.{records_of, layers_below};
ghost use Rattle.image.specs.Lent.{store_of, generation_of, IsStore, Installed, layer_of};
ghost use Rattle.records.specs.Records.{place_in};
ghost use Rattle.layers.specs.Answers.{row_content, PlaceOf, First, HighestIn, ValueAt};

use model::delta_snapshot::{Retention, Slot};
use model::storage_memo::U256;
use records::Found;

// A record: the number of its layer, and its own among all records of the store.
#[derive(Clone, Copy, Debug, PartialEq, Eq)]
pub struct Row {
    pub layer: usize,
    pub row: usize,
}

// Bytes that are a store.
#[derive(Clone, Copy)]
pub struct LentStore<'a> {
    pub bytes: &'a [u8],
    pub ghost is_store: { IsStore bytes.now },
}

// Bytes that are a store with a generation installed.
#[derive(Clone, Copy)]
pub struct LentGeneration<'a> {
    pub bytes: &'a [u8],
    pub ghost installed: { Installed bytes.now },
}

// Eight bytes before the layer ends: the end of the layer below layer k is the kth word from here on.
const LOWER_END_OFFSET: usize = layout::ENDS_OFFSET - 8;

impl<'a> LentStore<'a> {
    // The store's retention.
    #[tactic(auto, using(crate::proofs::Header::header_room, crate::proofs::Header::retention_is))]
    pub fn retention(self) -> Retention
        ensures { result ≡ (store_of self.entry.bytes.now).config.retention }
    {
        Retention::of_words(
            words::read_u64(self.bytes, layout::RETENTION_OFFSET),
            words::read_u64(self.bytes, layout::IDLE_OFFSET),
        )
    }

    // Whether a generation is installed.
    pub fn is_installed(self) -> bool
        ensures { result ≡ is_some (store_of self.entry.bytes.now).installed }
    {
        words::read_u64(self.bytes, layout::INSTALLED_OFFSET) != 0
    }
}

impl<'a> LentGeneration<'a> {
    // The store's retention.
    pub fn retention(self) -> Retention
        ensures { result ≡ (store_of self.entry.bytes.now).config.retention }
    {
        let store = LentStore { bytes: self.bytes };
        store.retention()
    }

    // The number of the installed anchor.
    pub fn installed_number(self) -> u64
        ensures { result ≡ (generation_of self.entry.bytes.now).anchor.number }
    {
        words::read_u64(self.bytes, layout::NUMBER_OFFSET)
    }

    // How many layers the base has.
    pub fn layers(self) -> usize
        ensures { result ≡ length (generation_of self.entry.bytes.now).base }
    {
        words::read_u64(self.bytes, layout::DEPTH_OFFSET) as usize + 1
    }

    // How many records stand below layer k.
    pub fn layer_start(self, k: usize) -> usize
        requires { k ≤ length (generation_of self.bytes.now).base }
        ensures { result ≡ record_count (layers_below k (generation_of self.entry.bytes.now).base) }
    {
        if k == 0 {
            return 0;
        }
        words::read_u64(self.bytes, LOWER_END_OFFSET + 8 * k) as usize
    }

    // How many records stand below the top.
    pub fn top_start(self) -> usize
        ensures { result ≡ record_count (generation_of self.entry.bytes.now).base }
    {
        self.layer_start(self.layers())
    }

    // How many records the top has.
    pub fn top_count(self) -> usize
        ensures { result ≡ length (generation_of self.entry.bytes.now).top }
    {
        words::read_u64(self.bytes, layout::RECORDS_COUNT_OFFSET) as usize - self.top_start()
    }

    // The last use of record `row` of all records.
    fn row_use(self, row: usize) -> u64
        requires { records_offset + record_size * (row + 1) ≤ length self.bytes.now }
        ensures { result ≡ use_of (row_content row self.entry.bytes.now) }
    {
        records::last_use(&self.bytes[layout::RECORDS_OFFSET..], row)
    }

    // Whether record `row` of all records has a value.
    fn row_has(self, row: usize) -> bool
        requires { records_offset + record_size * (row + 1) ≤ length self.bytes.now }
        ensures { result ≡ has_value (row_content row self.entry.bytes.now) }
    {
        records::has_value(&self.bytes[layout::RECORDS_OFFSET..], row)
    }

    // The value of record `row` of all records, or none.
    fn row_held(self, row: usize) -> Option<U256>
        requires { records_offset + record_size * (row + 1) ≤ length self.bytes.now }
        ensures { result ≡ (row_content row self.entry.bytes.now).held }
    {
        records::held(&self.bytes[layout::RECORDS_OFFSET..], row)
    }

    // The place of a slot among the n records from record `start` on.
    fn place_from(self, start: usize, n: usize, slot: Slot) -> Found
        requires { (records_offset + record_size * (start + n) ≤ length self.bytes.now) × (rising (records_of n (drop (records_offset + record_size * start) self.bytes.now)) ≡ true) }
        ensures { result ≡ place_in slot (records_of n (drop (records_offset + record_size * start) self.entry.bytes.now)) }
    {
        let at = layout::RECORDS_OFFSET + layout::RECORD_SIZE * start;
        records::find(&self.bytes[at..], n, slot)
    }

    // The place of a slot among the top's records.
    pub fn top_place(self, slot: Slot) -> Found
        ensures { result ≡ place_in slot (generation_of self.entry.bytes.now).top }
    {
        let n = self.top_count();
        self.place_from(self.top_start(), n, slot)
    }

    // The place of a slot among the records of layer k, which stand from `start` to `end`. A layer without records is not searched.
    fn layer_place(self, k: usize, start: usize, end: usize, slot: Slot) -> Found
        requires { (k < length (generation_of self.bytes.now).base) × (start ≡ record_count (layers_below k (generation_of self.bytes.now).base)) × (end ≡ record_count (layers_below (k + 1) (generation_of self.bytes.now).base)) }
        ensures { result ≡ place_in slot (layer_of k (generation_of self.entry.bytes.now).base) }
    {
        if start == end {
            return Err(0);
        }
        self.place_from(start, end - start, slot)
    }

    // The last use of a slot's record in the top, by its place there, if it has a value.
    pub fn top_valued_use(self, place: Found) -> Option<u64>
        requires { PlaceOf place (generation_of self.bytes.now).top }
        ensures { (t : Slot) → place ≡ place_in t (generation_of self.entry.bytes.now).top → result ≡ valued_use (find t (generation_of self.entry.bytes.now).top) }
    {
        let Ok(i) = place else {
            return None;
        };
        let row = self.top_start() + i;
        if self.row_has(row) {
            return Some(self.row_use(row));
        }
        None
    }

    // The highest record of a slot in the layers below k: in layer k - 1, or from there down. Its use is the freshest there: a slot's last use does not fall from a layer to the next above.
    fn highest(self, k: usize, slot: Slot) -> Option<Row>
        requires { k ≤ length (generation_of self.bytes.now).base }
        ensures { HighestIn result slot k self.entry.bytes.now }
    {
        if k == 0 {
            return None;
        }
        let start = self.layer_start(k - 1);
        let place = self.layer_place(k - 1, start, self.layer_start(k), slot);
        let Ok(i) = place else {
            if start == 0 {
                return None;
            }
            return self.highest(k - 1, slot);
        };
        Some(Row {
            layer: k - 1,
            row: start + i,
        })
    }

    // The number of the highest record of a slot with a value in the layers below k: its highest record there, or one from that record's layer down.
    fn value_row(self, k: usize, slot: Slot) -> Option<usize>
        requires { k ≤ length (generation_of self.bytes.now).base }
        ensures { ValueAt result (held_value slot (layers_below k (generation_of self.entry.bytes.now).base)) self.entry.bytes.now }
    {
        let found = self.highest(k, slot)?;
        if self.row_has(found.row) {
            return Some(found.row);
        }
        self.value_row(found.layer, slot)
    }

    // The largest last use of a slot in the layers below k.
    pub fn freshest_use(self, k: usize, slot: Slot) -> Option<u64>
        requires { k ≤ length (generation_of self.bytes.now).base }
        ensures { result ≡ freshest_use slot (layers_below k (generation_of self.entry.bytes.now).base) }
    {
        let freshest = self.highest(k, slot)?;
        Some(self.row_use(freshest.row))
    }

    // The number of the record whose value a look of a slot answers whose highest record is `row`: this one, or one from layer k - 1 down, if its use serves.
    fn served(self, k: usize, row: usize, slot: Slot) -> Option<usize>
        requires { First slot (chain (generation_of self.bytes.now)) k row self.bytes.now }
        ensures { ValueAt result (resolved (store_of self.entry.bytes.now).config.retention (generation_of self.entry.bytes.now) slot) self.entry.bytes.now }
    {
        let used = self.row_use(row);
        if !self.retention().serves(used, self.installed_number()) {
            return None;
        }
        if self.row_has(row) {
            return Some(row);
        }
        self.value_row(k, slot)
    }

    // The same of any slot, by its place in the top.
    pub fn served_row(self, place: Found, slot: Slot) -> Option<usize>
        requires { place ≡ place_in slot (generation_of self.bytes.now).top }
        ensures { ValueAt result (resolved (store_of self.entry.bytes.now).config.retention (generation_of self.entry.bytes.now) slot) self.entry.bytes.now }
    {
        let n = self.layers();
        if let Ok(i) = place {
            return self.served(n, self.top_start() + i, slot);
        }
        let found = self.highest(n, slot)?;
        self.served(found.layer, found.row, slot)
    }

    // What a look of a slot answers, by its place in the top.
    pub fn resolved_at(self, place: Found, slot: Slot) -> Option<U256>
        requires { place ≡ place_in slot (generation_of self.bytes.now).top }
        ensures { result ≡ resolved (store_of self.entry.bytes.now).config.retention (generation_of self.entry.bytes.now) slot }
    {
        let row = self.served_row(place, slot)?;
        self.row_held(row)
    }

    // What a look of a slot answers.
    pub fn resolved(self, slot: Slot) -> Option<U256>
        ensures { result ≡ resolved (store_of self.entry.bytes.now).config.retention (generation_of self.entry.bytes.now) slot }
    {
        self.resolved_at(self.top_place(slot), slot)
    }
}
