// The rules across layers of a store's records, in one pass by a table, or walked by their index.
#![tactic(auto)]

ghost use Rattle.std.specs.Prelude.{◌≡◌, ◌*◌, ◌≤◌, ◌<◌, length, IfSome};
ghost use Rattle.layout.specs.Layout.{record_size};
ghost use Rattle.image.specs.Area.{records_of};
ghost use Rattle.order.specs.Index.{Ordered, up_from};
ghost use Rattle.order.specs.Lent.{all_of, slots_of};
ghost use Rattle.chains.specs.Chains.{place_of};
ghost use Rattle.rules.specs.Rules.{oldest_use, broken, broken_over, cross_rules};

use model::delta_snapshot::Retention;
use order::{Index, Records};

// The oldest last use that serves: `Retention::serves` says yes from it on (the law `serves_oldest`).
pub fn oldest(retention: Retention, number: u64) -> u64
    ensures { result ≡ oldest_use retention number }
{
    match retention {
        Retention::Unbounded => 0,
        Retention::IdleBlocks(idle) => number.saturating_sub(idle),
    }
}

// Whether a record, met after those of its slot below, breaks its rules.
fn breaks(least: u64, number: u64, in_top: bool, has: bool, any: bool, low: u64, used: u64) -> bool
    ensures { result ≡ broken least number in_top has any low used }
{
    used < low || number < used || (!has && (!any || (in_top && low < least)))
}

// Whether the rules hold, by the index of the records. The top begins at record `top`.
fn rules(index: Index, top: usize, retention: Retention, number: u64) -> bool
    ensures { result ≡ cross_rules retention number top (all_of index.entry.records) }
{
    let records = index.records;
    let least = oldest(retention, number);
    let mut c = 0;
    let mut any = false;
    let mut low: u64 = 0;
    let mut bad = false;
    for (j, &i) in index.numbers.iter().enumerate() {
        let used = records.last_use(i);
        let has = records.valued(i);
        bad |= breaks(least, number, top <= i, has, any, low, used);
        any |= has;
        low = low.max(used);
        if index.ends(j) {
            c += usize::from(bad);
            any = false;
            low = 0;
            bad = false;
        }
    }
    c == 0
}

// So many steps for each record are taken in the table's chains before the check goes by a sort.
const STEPS: usize = 4;

// Whether record i breaks its rules, where those below are right and `last` is the last one of its slot below.
fn breaks_over(
    records: Records,
    i: usize,
    last: Option<usize>,
    least: u64,
    number: u64,
    in_top: bool,
) -> bool
    requires { (i < records.count) × (place_of last ≤ i) }
    ensures { result ≡ broken_over least number in_top (all_of records.entry) i (place_of last) }
{
    let used = records.last_use(i);
    let has = records.valued(i);
    match last {
        None => breaks(least, number, in_top, has, false, 0, used),
        Some(k) => {
            let low = records.last_use(k);
            breaks(least, number, in_top, has, true, low, used)
        }
    }
}

// Whether the rules hold, in one pass over the records by a table of those below: none where it is not found out.
fn by_table(records: Records, top: usize, retention: Retention, number: u64) -> Option<bool>
    ensures { IfSome result (λ holds. holds ≡ cross_rules retention number top (all_of records.entry)) }
{
    let least = oldest(retention, number);
    let mut head = [0u16; 8192];
    let mut prev = [0u16; 4096];
    let mut left = STEPS * records.count;
    for i in 0..records.count {
        let b = chains::bucket(records.bytes, i);
        let w = chains::last_below(records.bytes, i, b, &head, &prev, left)?;
        left = w.left;
        if breaks_over(records, i, w.last, least, number, top <= i) {
            return Some(false);
        }
        chains::link(i, b, &mut head, &mut prev);
    }
    Some(true)
}

// Whether the rules hold, by the index of the records.
fn by_sort(records: Records, top: usize, retention: Retention, number: u64) -> bool
    ensures { result ≡ cross_rules retention number top (all_of records.entry) }
{
    let mut a = [0usize; 4096];
    let mut b = [0usize; 4096];
    let n = records.count;
    records.order(&mut a[0..n], &mut b[0..n]);
    let index = Index {
        records,
        numbers: &b[0..n],
    };
    rules(index, top, retention, number)
}

// Whether the rules hold for some records, the top's from record `top` on. Slots can be chosen so that many share a bucket: then it goes by the sort.
pub fn cross_rules(records: Records, top: usize, retention: Retention, number: u64) -> bool
    ensures { result ≡ cross_rules retention number top (all_of records.entry) }
{
    match by_table(records, top, retention, number) {
        Some(holds) => holds,
        None => by_sort(records, top, retention, number),
    }
}
