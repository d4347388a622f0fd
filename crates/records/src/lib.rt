// Records in a slice: a slot and its content. They rise by slot.
#![tactic(auto)]

ghost use Rattle.std.specs.Prelude.{◌≡◌, true, cond, ◌+◌, ◌-◌, ◌*◌, ◌≤◌, ◌<◌, ◌^◌, ◌∷◌, [], ◌++◌, ltb, length, take, drop};
ghost use Rattle.layout.specs.Layout.{content_size, record_size, slot_size, slot_width};
ghost use Rattle.model.specs.Numbers.{num};
ghost use Rattle.model.specs.Slots.{slot_words};
ghost use Rattle.model.specs.Contents.{use_of, has_value, touch, content_words};
ghost use Rattle.model.specs.Layers.{Layer, find, insert};
ghost use Rattle.words.specs.Parts.{part, placed};
ghost use Rattle.image.specs.Image.{words_of, bytes_of, read_slot, read_record};
ghost use Rattle.image.specs.WellFormed.{rising};
ghost use Rattle.image.specs.Area.{records_of};
ghost use Rattle.records.specs.Records.{Found, words_order, slot_order, place_in, Entries, words_at, Ready, Holds};

use model::delta_snapshot::{Content, Slot};
use model::storage_memo::{Address, U256};
use std::cmp::Ordering;

// The bytes of a slot.
const SLOT_SIZE: usize = 8 * layout::SLOT_WIDTH;

// The words of a content.
const CONTENT_WIDTH: usize = layout::RECORD_WIDTH - layout::SLOT_WIDTH;

// The place of a slot's record, or as the error where it would go.
pub type Found = Result<usize, usize>;

// The slot in the seven words at `at`.
pub fn slot_at(s: &[u8], at: usize) -> Slot
    requires { (at + slot_size ≤ length s.now) × (num (part at 8 s.now) < 2 ^ 32) }
    ensures { result ≡ read_slot (words_of slot_width (drop at s.now)) }
{
    Slot {
        address: Address {
            w0: words::read_u64(s, at) as u32,
            w1: words::read_u64(s, at + 8),
            w2: words::read_u64(s, at + 16),
        },
        index: U256 {
            w0: words::read_u64(s, at + 24),
            w1: words::read_u64(s, at + 32),
            w2: words::read_u64(s, at + 40),
            w3: words::read_u64(s, at + 48),
        },
    }
}

// A slot's words.
pub fn slot_words(slot: Slot) -> [u64; layout::SLOT_WIDTH]
    ensures { result ≡ slot_words slot }
{
    let a = slot.address;
    let i = slot.index;
    [u64::from(a.w0), a.w1, a.w2, i.w0, i.w1, i.w2, i.w3]
}

// The seven words at `at`, as the words of a slot. The first is not known to be an address's.
pub fn read_slot_words(s: &[u8], at: usize) -> [u64; layout::SLOT_WIDTH]
    requires { at + slot_size ≤ length s.now }
    ensures { result ≡ words_of slot_width (drop at s.now) }
{
    [
        words::read_u64(s, at),
        words::read_u64(s, at + 8),
        words::read_u64(s, at + 16),
        words::read_u64(s, at + 24),
        words::read_u64(s, at + 32),
        words::read_u64(s, at + 40),
        words::read_u64(s, at + 48),
    ]
}

// How the seven words at `at` stand to others: the first word that differs decides.
// By words and not as slices of bytes, which are compared by a call: with them a check takes two to twelve times as long.
pub fn compare_words(s: &[u8], at: usize, ws: [u64; layout::SLOT_WIDTH]) -> Ordering
    requires { at + slot_size ≤ length s.now }
    ensures { result ≡ words_order (words_of slot_width (drop at s.now)) ws }
{
    for (k, y) in ws.iter().enumerate() {
        let x = words::read_u64(s, at + 8 * k);
        if x != *y {
            return x.cmp(y);
        }
    }
    Ordering::Equal
}

// How the slot in the seven words at `at` stands to `slot`.
pub fn compare(s: &[u8], at: usize, slot: Slot) -> Ordering
    requires { at + slot_size ≤ length s.now }
    ensures { result ≡ slot_order (read_slot (words_of slot_width (drop at s.now))) slot }
{
    compare_words(s, at, slot_words(slot))
}

// The last use of record i.
pub fn last_use(s: &[u8], i: usize) -> u64
    requires { (i + 1) * record_size ≤ length s.now }
    ensures { result ≡ use_of (read_record (words_at i s.now)).content }
{
    words::read_u64(s, i * layout::RECORD_SIZE + layout::LAST_USE_OFFSET)
}

// Whether record i has a value.
pub fn has_value(s: &[u8], i: usize) -> bool
    requires { (i + 1) * record_size ≤ length s.now }
    ensures { result ≡ has_value (read_record (words_at i s.now)).content }
{
    words::read_u64(s, i * layout::RECORD_SIZE + layout::HAS_OFFSET) != 0
}

// The value of record i, or none.
pub fn held(s: &[u8], i: usize) -> Option<U256>
    requires { (i + 1) * record_size ≤ length s.now }
    ensures { result ≡ (read_record (words_at i s.now)).content.held }
{
    if has_value(s, i) {
        return Some(entries::read_u256(s, i * layout::RECORD_SIZE + layout::VALUE_OFFSET));
    }
    None
}

// The content of record i.
pub fn content(s: &[u8], i: usize) -> Content
    requires { (i + 1) * record_size ≤ length s.now }
    ensures { result ≡ (read_record (words_at i s.now)).content }
{
    Content {
        used: last_use(s, i),
        held: held(s, i),
    }
}

// Writes a slot's seven words at `at`.
pub fn write_slot(s: &mut [u8], at: usize, slot: Slot)
    requires { at + slot_size ≤ length s.old }
    ensures { s.new ≡ placed at (bytes_of (slot_words slot)) s.old }
{
    image::write_words(s, at, slot_words(slot));
}

// The words of a content: its last use, whether it has a value, the value, and no second use.
fn content_words(c: Content) -> [u64; CONTENT_WIDTH]
    ensures { result ≡ content_words c }
{
    let held = c.held;
    match held {
        None => [c.used, 0, 0, 0, 0, 0, 0],
        Some(v) => [c.used, 1, v.w0, v.w1, v.w2, v.w3, 0],
    }
}

// Writes a content at `at`.
pub fn write_content(s: &mut [u8], at: usize, c: Content)
    requires { at + content_size ≤ length s.old }
    ensures { s.new ≡ placed at (bytes_of (content_words c)) s.old }
{
    image::write_words(s, at, content_words(c));
}

// The place of a slot among n entries of `wide` bytes each, which begin with their slots and rise, by halves.
// The library's `binary_search_by` over `as_chunks` leaves no loop early, and takes 1.2 to 1.6 times as long.
pub fn search(s: &[u8], wide: usize, n: usize, slot: Slot) -> Found
    requires { (slot_size ≤ wide) × (n * wide ≤ length s.now) }
    ensures { (l : Layer) → Entries wide n s.now l → result ≡ place_in slot l }
{
    let mut lo = 0;
    let mut hi = n;
    while lo < hi {
        let mid = lo + (hi - lo) / 2;
        match compare(s, mid * wide, slot) {
            Ordering::Less => {
                lo = mid + 1;
            }
            Ordering::Equal => return Ok(mid),
            Ordering::Greater => {
                hi = mid;
            }
        }
    }
    Err(lo)
}

// The place of a slot among the n records that s begins with.
pub fn find(s: &[u8], n: usize, slot: Slot) -> Found
    requires { (n * record_size ≤ length s.now) × (rising (records_of n s.now) ≡ true) }
    ensures { result ≡ place_in slot (records_of n s.now) }
{
    search(s, layout::RECORD_SIZE, n, slot)
}

// Puts an entry, a slot and the words after it, before entry i of the n that s begins with.
pub fn insert_entry<const WORDS: usize>(
    s: &mut [u8],
    n: usize,
    i: usize,
    slot: Slot,
    rest: [u64; WORDS],
)
    requires { (i ≤ n) × ((n + 1) * (slot_size + 8 * WORDS) ≤ length s.old) }
    ensures { s.new ≡ take (i * (slot_size + 8 * WORDS)) s.old ++ bytes_of (slot_words slot ++ rest.entry) ++ part (i * (slot_size + 8 * WORDS)) ((n - i) * (slot_size + 8 * WORDS)) s.old ++ drop ((n + 1) * (slot_size + 8 * WORDS)) s.old }
{
    let wide = SLOT_SIZE + 8 * WORDS;
    words::move_up(s, i * wide, (n - i) * wide, wide);
    write_slot(s, i * wide, slot);
    image::write_words(s, i * wide + SLOT_SIZE, rest);
}

// Sets the content of a slot's record, which stands or goes at `place`; the number of records then.
pub fn set(s: &mut [u8], n: usize, place: Found, slot: Slot, c: Content) -> usize
    requires { Ready place slot n s.old }
    ensures { Holds result s.new (insert slot c (records_of n s.old)) s.old }
{
    match place {
        Ok(i) => {
            write_content(s, i * layout::RECORD_SIZE + layout::LAST_USE_OFFSET, c);
            n
        }
        Err(i) => {
            insert_entry(s, n, i, slot, content_words(c));
            n + 1
        }
    }
}

// Sets the last use of a slot's record, which stands or goes at `place`; its value stays, and is not written. The number of records then.
pub fn touch(s: &mut [u8], n: usize, place: Found, slot: Slot, used: u64) -> usize
    requires { Ready place slot n s.old }
    ensures { Holds result s.new (insert slot (touch used (find slot (records_of n s.old))) (records_of n s.old)) s.old }
{
    match place {
        Ok(i) => {
            words::write_u64(s, i * layout::RECORD_SIZE + layout::LAST_USE_OFFSET, used);
            n
        }
        Err(i) => {
            let c = Content { used, held: None };
            insert_entry(s, n, i, slot, content_words(c));
            n + 1
        }
    }
}
