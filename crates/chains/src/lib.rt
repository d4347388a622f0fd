// A table that finds the last record of a slot below a record: chains of records by bucket.
#![tactic(auto)]

ghost use Rattle.std.specs.Prelude.{◌≡◌, List, ℕ, ◌+◌, ◌*◌, ◌≤◌, ◌<◌, length, IfSome};
ghost use Rattle.layout.specs.Layout.{record_size};
ghost use Rattle.model.specs.Slots.{slot_eqb};
ghost use Rattle.order.specs.Index.{slot_at};
ghost use Rattle.chains.specs.Chains.{mixed, bucket_at, LastOfSlot, place_of, Chained};

// The number of a bucket from two words.
fn mix(x: u64, y: u64) -> usize
    ensures { (result ≡ mixed x y) × (result < 8192) }
{
    let a = x % 0x1_0000_0000 * 1_481_765_933;
    let b = (y % 0x1_0000_0000 + y / 0x1_0000_0000) * 663_608_941;
    ((a + b) / 131_072 % 8192) as usize
}

// The bucket of the slot of record i, by the last words of its address and of its index.
pub fn bucket(s: &[u8], i: usize) -> usize
    requires { i * record_size + record_size ≤ length s.now }
    ensures { (result ≡ bucket_at i s.now) × (result < 8192) }
{
    let at = i * layout::RECORD_SIZE;
    mix(words::read_u64(s, at + 16), words::read_u64(s, at + 48))
}

// Whether records i and j have one slot.
fn same_slot(s: &[u8], i: usize, j: usize) -> bool
    requires { (i * record_size + record_size ≤ length s.now) × (j * record_size + record_size ≤ length s.now) }
    ensures { result ≡ slot_eqb (slot_at i s.now) (slot_at j s.now) }
{
    order::compare(s, i * layout::RECORD_SIZE, j * layout::RECORD_SIZE).is_eq()
}

// What a search found, if there is one, and how many steps are left.
#[derive(Clone, Copy, Debug, PartialEq, Eq)]
pub struct Walked {
    pub last: Option<usize>,
    pub left: usize,
}

// The last record below i that has its slot, if it is found out in so many steps.
pub fn last_below(
    s: &[u8],
    i: usize,
    b: usize,
    head: &[u16; 8192],
    prev: &[u16; 4096],
    steps: usize,
) -> Option<Walked>
    requires { (i * record_size + record_size ≤ length s.now) × (i < 4096) × (b ≡ bucket_at i s.now) × (b < 8192) × Chained s.now i head.now prev.now }
    ensures { IfSome result (λ w. LastOfSlot s.now i (place_of w.last)) }
{
    // The table keeps one more than a record's number, or 0 for none, in fixed memory.
    let mut p = head[b] as usize;
    let mut left = steps;
    while 0 < p {
        if left == 0 {
            return None;
        }
        left -= 1;
        if same_slot(s, p - 1, i) {
            return Some(Walked {
                last: Some(p - 1),
                left,
            });
        }
        p = prev[p - 1] as usize;
    }
    Some(Walked { last: None, left })
}

// Puts record i into the table.
pub fn link(i: usize, b: usize, head: &mut [u16; 8192], prev: &mut [u16; 4096])
    requires { (i < 4096) × (b < 8192) }
    ensures { (s : List ℕ) → b ≡ bucket_at i s → Chained s i head.old prev.old → Chained s (i + 1) head.new prev.new }
{
    prev[i] = head[b];
    head[b] = (i + 1) as u16;
}
