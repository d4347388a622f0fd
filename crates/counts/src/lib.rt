// Held and live of a store's records, by one walk over their index.
#![tactic(auto)]

ghost use Rattle.std.specs.Prelude.{◌≡◌, not, ◌&&◌, ◌*◌, ◌≤◌, ltb, length};
ghost use Rattle.layout.specs.Layout.{record_size};
ghost use Rattle.image.specs.Area.{records_of};
ghost use Rattle.order.specs.Index.{Ordered, up_from};
ghost use Rattle.order.specs.Lent.{all_of, slots_of};
ghost use Rattle.counts.specs.Counts.{held_in, live_in};

use model::delta_snapshot::Retention;
use order::{Index, Records};

// Both counts.
#[derive(Clone, Copy, Debug, PartialEq, Eq)]
pub struct Counts {
    pub held: usize,
    pub live: usize,
}

// Whether a slot is served: of the oldest use that serves, whether it has a value, and its freshest use.
pub fn served(least: u64, any: bool, low: u64) -> bool
    ensures { result ≡ (any && not (ltb low least)) }
{
    any && least <= low
}

// Both counts, by the index of the records.
fn walk(index: Index, retention: Retention, number: u64) -> Counts
    ensures { (result.held ≡ held_in (all_of index.entry.records)) × (result.live ≡ live_in retention number (all_of index.entry.records)) }
{
    let records = index.records;
    let least = rules::oldest(retention, number);
    let mut held = 0;
    let mut live = 0;
    let mut any = false;
    let mut low: u64 = 0;
    for (j, &i) in index.numbers.iter().enumerate() {
        any |= records.valued(i);
        low = low.max(records.last_use(i));
        if index.ends(j) {
            held += usize::from(any);
            live += usize::from(served(least, any, low));
            any = false;
            low = 0;
        }
    }
    Counts { held, live }
}

// Held and live at `number` of some records.
pub fn held_and_live(records: Records, retention: Retention, number: u64) -> Counts
    ensures { (result.held ≡ held_in (all_of records.entry)) × (result.live ≡ live_in retention number (all_of records.entry)) }
{
    let n = records.count;
    let mut a = [0usize; 4096];
    let mut b = [0usize; 4096];
    records.order(&mut a[0..n], &mut b[0..n]);
    let index = Index {
        records,
        numbers: &b[0..n],
    };
    walk(index, retention, number)
}
