// The fold of a base's layers into one, by one walk over the index of its records.
#![tactic(auto)]

ghost use Rattle.std.specs.Prelude.{◌≡◌, ◌+◌, ◌*◌, ◌≤◌, ◌<◌, length, get_or};
ghost use Rattle.layout.specs.Layout.{record_size};
ghost use Rattle.words.specs.Parts.{placed};
ghost use Rattle.image.specs.Image.{bytes_of, record_words, read_record};
ghost use Rattle.image.specs.Area.{records_of, with_records};
ghost use Rattle.order.specs.Index.{Ordered, up_from};
ghost use Rattle.order.specs.Lent.{all_of, record_of, slots_of};
ghost use Rattle.records.specs.Records.{words_at};
ghost use Rattle.fold.specs.Fold.{folded, dropped_in};
ghost use Rattle.fold.specs.Stored.{renewed, kept, Stored};

use model::delta_snapshot::Retention;
use order::{Index, Records};

// How many slots a fold left and how many it dropped.
#[derive(Clone, Copy, Debug, PartialEq, Eq)]
pub struct Folded {
    pub left: usize,
    pub dropped: usize,
}

// Writes record i, used at `used`, as record c of the output.
fn write_record(s: &[u8], i: usize, used: u64, out: &mut [u8], c: usize)
    requires { (i * record_size + record_size ≤ length s.now) × ((c + 1) * record_size ≤ length out.old) }
    ensures { out.new ≡ placed (c * record_size) (bytes_of (record_words (renewed used (read_record (words_at i s.now))))) out.old }
{
    let from = i * layout::RECORD_SIZE;
    let to = c * layout::RECORD_SIZE;
    words::place(out, to, &s[from..from + layout::LAST_USE_OFFSET]);
    let content = records::content(s, i);
    records::write_content(out, to + layout::LAST_USE_OFFSET, content.touch(used));
}

// What is left of a slot, whose newest record with a value is record i, written as record c of the output: where the next goes.
fn settle(records: Records, i: usize, keep: bool, used: u64, out: &mut [u8], c: usize) -> usize
    requires { (i < records.count) × ((c + 1) * record_size ≤ length out.old) }
    ensures { Stored c result (kept keep used (record_of records.entry i)) out.old out.new }
{
    if keep {
        write_record(records.bytes, i, used, out, c);
        c + 1
    } else {
        c
    }
}

// The fold, by the index of the records.
fn walk(index: Index, retention: Retention, number: u64, out: &mut [u8]) -> Folded
    requires { length index.numbers.now * record_size ≤ length out.old }
    ensures { (out.new ≡ with_records (folded retention number (all_of index.entry.records)) out.old) × (result.left ≡ length (folded retention number (all_of index.entry.records))) × (result.dropped ≡ dropped_in retention number (all_of index.entry.records)) }
{
    let records = index.records;
    let least = rules::oldest(retention, number);
    let mut left = 0;
    let mut dropped = 0;
    let mut any = false;
    let mut low: u64 = 0;
    let mut at = 0;
    for (j, &i) in index.numbers.iter().enumerate() {
        let has = records.valued(i);
        any |= has;
        low = low.max(records.last_use(i));
        at = if has { i } else { at };
        if index.ends(j) {
            left = settle(records, at, counts::served(least, any, low), low, out, left);
            dropped += usize::from(low < least);
            any = false;
            low = 0;
            at = 0;
        }
    }
    Folded { left, dropped }
}

// The fold of some records (`compact`): writes, at the beginning of the output, the one layer of each slot whose freshest use serves at `number`, with its newest value and that use.
pub fn compact(records: Records, retention: Retention, number: u64, out: &mut [u8]) -> Folded
    requires { records.count * record_size ≤ length out.old }
    ensures { (out.new ≡ with_records (folded retention number (all_of records.entry)) out.old) × (result.left ≡ length (folded retention number (all_of records.entry))) × (result.dropped ≡ dropped_in retention number (all_of records.entry)) }
{
    let n = records.count;
    let mut a = [0usize; 4096];
    let mut b = [0usize; 4096];
    records.order(&mut a[0..n], &mut b[0..n]);
    let index = Index {
        records,
        numbers: &b[0..n],
    };
    walk(index, retention, number, out)
}
