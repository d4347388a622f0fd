// Are these bytes a store? The checks of its parts, one function each.
#![tactic(auto)]

ghost use Rattle.std.specs.Prelude.{◌≡◌, true, [], ◌∷◌, ℕ, suc, ◌+◌, ◌*◌, ◌^◌, ◌≤◌, ◌<◌, length, take, drop, get_or, slice_index, is_some, IfSome, SomeIff};
ghost use Rattle.layout.specs.Layout.{awaiting_count_index, awaiting_offset, awaiting_size, awaiting_table, awaiting_width, depth_index, ends_limit, ends_offset, header_width, number_index, record_size, record_width, records_count_index, records_offset, slot_size};
ghost use Rattle.image.specs.Image.{words_of};
ghost use Rattle.checking.specs.Checks.{all_zero, all_of, normal, config_right, anchor_right, counts_right, totals_add_up, totals_right, ends_rise, ends_right, awaiting_right, waiters_sum, queue_right, reads_right, record_right, area_right, records_right, layers_rise, rows, slots_of, slots_rise, capacity_of, Sized};

use model::read_hub::ReadTotals;

// Where the end of layer 1 stands: the ends past layer d begin d words after it.
const SECOND_END_OFFSET: usize = layout::ENDS_OFFSET + 8;

// The accepted reads of a generation are at most so many.
const MOST_READS: u64 = 0xffff_ffff;

// The first word of a slot is at most so high.
const HIGHEST: u64 = 0xffff_ffff;

// Word i of the bytes from `at` on.
pub fn word(s: &[u8], at: usize, i: usize) -> u64
    requires { at + 8 * i + 8 ≤ length s.now }
    ensures { (n : ℕ) → i < n → result ≡ get_or (words_of n (drop at s.now)) i 0 }
{
    words::read_u64(s, at + 8 * i)
}

// Whether the bytes from place `from` to place `to` are 0. There is no early exit, so that it is compiled to vector code.
pub fn zero(s: &[u8], from: usize, to: usize) -> bool
    requires { (from ≤ to) × (to ≤ length s.now) }
    ensures { result ≡ all_zero (drop from (take to s.now)) }
{
    let mut m = 0;
    for b in &s[from..to] {
        m |= *b;
    }
    m == 0
}

// Whether the slots of the entries from number `from` to number `to` rise. An entry has `wide` bytes.
fn rises(s: &[u8], wide: usize, from: usize, to: usize) -> bool
    requires { (slot_size ≤ wide) × (from ≤ to) × (to * wide ≤ length s.now) }
    ensures { result ≡ slots_rise (drop from (slots_of wide to s.now)) }
{
    (from..to.saturating_sub(1)).all(|i| order::slot_less(s, i * wide, (i + 1) * wide))
}

// Whether a flag is 0 and the word with it too, or 1.
#[tactic(auto, using(std::proofs::lemmas::Bool::Decides::nat_tests), unfolding(crate::specs::Checks::normal, crate::specs::Checks::all_zero))]
fn normal_word(f: u64, x: u64) -> bool
    ensures { result ≡ normal f (x ∷ []) }
{
    if f == 0 { x == 0 } else { f == 1 }
}

// Whether word i of the bytes from `at` on, a flag, is 0 and the four words after it too, or 1.
#[tactic(auto, using(std::proofs::lemmas::Bool::Decides::nat_tests, crate::proofs::Parts::zero_four), unfolding(crate::specs::Checks::normal))]
fn normal_words(s: &[u8], at: usize, i: usize) -> bool
    requires { at + 8 * i + 40 ≤ length s.now }
    ensures { (n : ℕ) → i + 5 ≤ n → let w = words_of n (drop at s.now) in result ≡ normal (get_or w i 0) (get_or w (i + 1) 0 ∷ get_or w (i + 2) 0 ∷ get_or w (i + 3) 0 ∷ get_or w (i + 4) 0 ∷ []) }
{
    let f = word(s, at, i);
    if f == 0 {
        zero(s, at + 8 * (i + 1), at + 8 * (i + 5))
    } else {
        f == 1
    }
}

// Words 0 to 4.
#[tactic(auto, using(std::proofs::lemmas::Bool::Decides::nat_tests), unfolding(crate::specs::Checks::config_right))]
pub fn config_right(s: &[u8]) -> bool
    requires { ends_offset ≤ length s.now }
    ensures { result ≡ config_right (words_of header_width s.now) }
{
    let capacity = word(s, 0, layout::CAPACITY_INDEX);
    let depth = word(s, 0, layout::MAX_DEPTH_INDEX);
    word(s, 0, 0) == layout::MAGIC
        && capacity != 0
        && capacity <= 4096
        && depth != 0
        && depth <= 255
        && normal_word(
            word(s, 0, layout::RETENTION_INDEX),
            word(s, 0, layout::IDLE_INDEX),
        )
}

// The reads by what became of them, if the sum fits.
fn reads(t: ReadTotals) -> Option<u64>
    ensures { SomeIff result (t.served + t.waiting + t.valued + t.refused < 2 ^ 64) (t.served + t.waiting + t.valued + t.refused) }
{
    t.served
        .checked_add(t.waiting)?
        .checked_add(t.valued)?
        .checked_add(t.refused)
}

// The reads that joined a slot, the slots that were answered and those that await, if the sum fits.
fn slots(t: ReadTotals, n: u64) -> Option<u64>
    ensures { SomeIff result (t.coalesced + t.members + n < 2 ^ 64) (t.coalesced + t.members + n) }
{
    t.coalesced.checked_add(t.members)?.checked_add(n)
}

// The test of the read totals.
#[tactic(auto, using(std::proofs::lemmas::Bool::Decides::nat_tests), unfolding(crate::specs::Checks::totals_add_up))]
fn totals_add_up(t: ReadTotals, w: u64, n: u64) -> bool
    ensures { result ≡ totals_add_up w n t.accepted t.served t.waiting t.valued t.refused t.rounds t.members t.errors t.coalesced }
{
    t.accepted <= MOST_READS
        && reads(t) == Some(t.accepted)
        && t.waiting == w
        && slots(t, n) == Some(t.waiting + t.valued + t.refused)
        && t.rounds <= t.members
        && t.errors <= t.members
}

// The test of an awaiting slot.
#[tactic(auto, using(std::proofs::lemmas::Bool::Decides::nat_tests), unfolding(crate::specs::Checks::awaiting_right))]
fn awaiting_right(s: &[u8], at: usize) -> bool
    requires { at + awaiting_size ≤ length s.now }
    ensures { result ≡ awaiting_right (words_of awaiting_width (drop at s.now)) }
{
    let w = word(s, at, layout::WAITERS_INDEX);
    word(s, at, 0) <= HIGHEST
        && w != 0
        && w <= MOST_READS
        && word(s, at, layout::TAKEN_INDEX) <= 1
        && word(s, at, layout::SECOND_WAITERS_INDEX) == 0
}

// The test of a record by itself.
#[tactic(auto, using(std::proofs::lemmas::Bool::Decides::nat_tests, crate::proofs::Parts::record_words_right, image::proofs::Words::length_words_of))]
fn record_right(s: &[u8], at: usize, number: u64) -> bool
    requires { at + record_size ≤ length s.now }
    ensures { result ≡ record_right number (words_of record_width (drop at s.now)) }
{
    word(s, at, 0) <= HIGHEST
        && normal_words(s, at, layout::HAS_INDEX)
        && word(s, at, layout::SECOND_USE_INDEX) == 0
        && word(s, at, layout::LAST_USE_INDEX) <= number
}

// Bytes as long as a store of the capacity that they name.
#[derive(Clone, Copy)]
pub struct SizedBytes<'a> {
    pub bytes: &'a [u8],
    pub ghost sized: { Sized bytes.now },
    pub ghost are_bytes: { (i : ℕ) → slice_index bytes.now i < 2 ^ 8 },
}

impl<'a> SizedBytes<'a> {
    // Words 5 to 11.
    #[tactic(auto, using(std::proofs::lemmas::Bool::Decides::nat_tests), unfolding(crate::specs::Checks::anchor_right))]
    pub fn anchor_right(self) -> bool
        ensures { result ≡ anchor_right (words_of header_width self.entry.bytes.now) }
    {
        word(self.bytes, 0, layout::INSTALLED_INDEX) == 1
            && normal_words(self.bytes, 0, layout::HASH_INDEX)
    }

    // Words 12 to 14, if they are within their limits.
    #[tactic(auto, using(std::proofs::lemmas::Bool::Decides::nat_tests), unfolding(crate::specs::Checks::counts_right))]
    pub fn counts(self) -> Option<Counted<'a>>
        ensures is_right { is_some result ≡ counts_right (words_of header_width self.entry.bytes.now) }
        ensures same { IfSome result (λ c. c.bytes.now ≡ self.entry.bytes.now) }
    {
        let capacity = word(self.bytes, 0, layout::CAPACITY_INDEX);
        let depth = word(self.bytes, 0, layout::DEPTH_INDEX);
        let records = word(self.bytes, 0, layout::RECORDS_COUNT_INDEX);
        let awaiting = word(self.bytes, 0, layout::AWAITING_COUNT_INDEX);
        if depth > word(self.bytes, 0, layout::MAX_DEPTH_INDEX)
            || records > capacity
            || awaiting > layout::AWAITING_LIMIT as u64
        {
            return None;
        }
        Some(Counted {
            bytes: self.bytes,
            capacity: capacity as usize,
            depth: depth as usize,
            records: records as usize,
            awaiting: awaiting as usize,
        })
    }
}

// Such bytes and what their header counts, each within its limit.
#[derive(Clone, Copy)]
pub struct Counted<'a> {
    pub bytes: &'a [u8],
    pub capacity: usize,
    pub depth: usize,
    pub records: usize,
    pub awaiting: usize,
    pub ghost capacity_is: { capacity ≡ capacity_of bytes.now },
    pub ghost depth_is: { depth ≡ get_or (words_of header_width bytes.now) depth_index 0 },
    pub ghost records_is: { records ≡ get_or (words_of header_width bytes.now) records_count_index 0 },
    pub ghost awaiting_is: { awaiting ≡ get_or (words_of header_width bytes.now) awaiting_count_index 0 },
    pub ghost shallow: { depth ≤ 255 },
    pub ghost few: { (records ≤ capacity) × (capacity ≤ 4096) },
    pub ghost short: { awaiting ≤ 64 },
    pub ghost within: { records_offset + record_size * capacity ≤ length bytes.now },
    pub ghost are_bytes: { (i : ℕ) → slice_index bytes.now i < 2 ^ 8 },
}

impl<'a> Counted<'a> {
    // The installed number.
    pub fn number(self) -> u64
        ensures { result ≡ get_or (words_of header_width self.entry.bytes.now) number_index 0 }
    {
        word(self.bytes, 0, layout::NUMBER_INDEX)
    }

    // Words 15 to 23, with w waiters.
    fn totals_right(self, w: u64) -> bool
        ensures { result ≡ totals_right w self.entry.awaiting (words_of header_width self.entry.bytes.now) }
    {
        totals_add_up(totals::read_totals(self.bytes), w, self.awaiting as u64)
    }

    // Whether the ends of layers 0 to depth never fall, and are at most the number of records.
    #[tactic(auto, using(std::proofs::lemmas::Bool::Decides::nat_tests, crate::proofs::Steps::ends_next, crate::proofs::Steps::ends_end, image::proofs::Words::length_words_of))]
    fn ends_rise(self) -> bool
        ensures { result ≡ ends_rise self.entry.records 0 (take (suc self.entry.depth) (words_of ends_limit (drop ends_offset self.entry.bytes.now))) }
    {
        let mut from = 0;
        for k in 0..self.depth + 1 {
            let e = word(self.bytes, layout::ENDS_OFFSET, k);
            if e < from {
                return false;
            }
            from = e;
        }
        from <= self.records as u64
    }

    // The layer ends.
    #[tactic(auto, using(crate::proofs::Parts::ends_both))]
    pub fn ends_right(self) -> bool
        ensures { result ≡ ends_right self.entry.depth self.entry.records (words_of ends_limit (drop ends_offset self.entry.bytes.now)) }
    {
        self.ends_rise()
            && zero(
                self.bytes,
                SECOND_END_OFFSET + 8 * self.depth,
                layout::AWAITING_OFFSET,
            )
    }

    // Whether each awaiting slot is right by itself.
    fn awaiting_all(self) -> bool
        ensures { result ≡ all_of awaiting_right (rows awaiting_width self.entry.awaiting (drop awaiting_offset self.entry.bytes.now)) }
    {
        (0..self.awaiting).all(|i| {
            awaiting_right(
                self.bytes,
                layout::AWAITING_OFFSET + layout::AWAITING_SIZE * i,
            )
        })
    }

    // The waiters of all awaiting slots.
    fn waiters(self) -> u64
        requires { all_of awaiting_right (rows awaiting_width self.awaiting (drop awaiting_offset self.bytes.now)) ≡ true }
        ensures { result ≡ waiters_sum (rows awaiting_width self.entry.awaiting (drop awaiting_offset self.entry.bytes.now)) }
    {
        (0..self.awaiting)
            .map(|i| {
                word(
                    self.bytes,
                    layout::AWAITING_OFFSET + layout::AWAITING_SIZE * i,
                    layout::WAITERS_INDEX,
                )
            })
            .sum()
    }

    // The awaiting slots.
    #[tactic(auto, using(crate::proofs::Parts::queue_all))]
    fn queue_right(self) -> bool
        ensures { result ≡ queue_right self.entry.awaiting (words_of awaiting_table (drop awaiting_offset self.entry.bytes.now)) }
    {
        self.awaiting_all()
            && rises(
                &self.bytes[layout::AWAITING_OFFSET..],
                layout::AWAITING_SIZE,
                0,
                self.awaiting,
            )
            && zero(
                self.bytes,
                layout::AWAITING_OFFSET + layout::AWAITING_SIZE * self.awaiting,
                layout::RECORDS_OFFSET,
            )
    }

    // The awaiting slots and the read totals.
    #[tactic(auto, using(crate::proofs::Parts::reads_both, crate::proofs::Parts::queue_rows))]
    pub fn reads_right(self) -> bool
        ensures { result ≡ reads_right self.entry.awaiting (words_of header_width self.entry.bytes.now) (words_of awaiting_table (drop awaiting_offset self.entry.bytes.now)) }
    {
        self.queue_right() && self.totals_right(self.waiters())
    }

    // Whether each record is right by itself.
    fn records_all(self) -> bool
        ensures { result ≡ all_of (record_right (get_or (words_of header_width self.entry.bytes.now) number_index 0)) (rows record_width self.entry.records (drop records_offset self.entry.bytes.now)) }
    {
        let number = self.number();
        (0..self.records).all(|i| {
            record_right(
                self.bytes,
                layout::RECORDS_OFFSET + layout::RECORD_SIZE * i,
                number,
            )
        })
    }

    // The record area.
    #[tactic(auto, using(crate::proofs::Parts::area_both))]
    fn area_right(self) -> bool
        ensures { result ≡ area_right (get_or (words_of header_width self.entry.bytes.now) number_index 0) self.entry.records (words_of (record_width * self.entry.capacity) (drop records_offset self.entry.bytes.now)) }
    {
        self.records_all()
            && zero(
                self.bytes,
                layout::RECORDS_OFFSET + layout::RECORD_SIZE * self.records,
                layout::RECORDS_OFFSET + layout::RECORD_SIZE * self.capacity,
            )
    }

    // Whether the records of each layer and of the top rise.
    #[tactic(auto, using(std::proofs::lemmas::Bool::Decides::nat_tests, crate::proofs::Parts::next_layer, crate::proofs::Parts::last_layer, crate::proofs::Steps::next_end, image::proofs::Words::length_words_of))]
    fn layers_rise(self) -> bool
        requires { ends_rise self.records 0 (take (suc self.depth) (words_of ends_limit (drop ends_offset self.bytes.now))) ≡ true }
        ensures { result ≡ layers_rise 0 (take (suc self.entry.depth) (words_of ends_limit (drop ends_offset self.entry.bytes.now))) (rows record_width self.entry.records (drop records_offset self.entry.bytes.now)) }
    {
        let records = &self.bytes[layout::RECORDS_OFFSET..];
        let mut from = 0;
        for k in 0..self.depth + 1 {
            let e = word(self.bytes, layout::ENDS_OFFSET, k) as usize;
            if !rises(records, layout::RECORD_SIZE, from, e) {
                return false;
            }
            from = e;
        }
        rises(records, layout::RECORD_SIZE, from, self.records)
    }

    // The records by themselves and in their layers.
    #[tactic(auto, using(crate::proofs::Parts::records_both))]
    pub fn records_right(self) -> bool
        requires { ends_rise self.records 0 (take (suc self.depth) (words_of ends_limit (drop ends_offset self.bytes.now))) ≡ true }
        ensures { result ≡ records_right (get_or (words_of header_width self.entry.bytes.now) number_index 0) self.entry.depth self.entry.records (words_of ends_limit (drop ends_offset self.entry.bytes.now)) (words_of (record_width * self.entry.capacity) (drop records_offset self.entry.bytes.now)) }
    {
        self.area_right() && self.layers_rise()
    }
}
