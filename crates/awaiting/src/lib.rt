// The awaiting slots of a store in bytes, rising by slot: each has the slot's words, its waiters, and 1 if it is taken.
#![tactic(auto)]

ghost use Rattle.std.specs.Prelude.{◌≡◌, ℕ, false, ◌+◌, ◌-◌, ◌*◌, ◌^◌, ◌≤◌, ◌<◌, ◌∷◌, ◌++◌, [], length, take, drop, replicate};
ghost use Rattle.std.proofs.Common.{lit≤};
ghost use Rattle.layout.specs.Layout.{awaiting_size};
ghost use Rattle.model.specs.Slots.{slot_words, mem};
ghost use Rattle.model.specs.Reads as reads;
ghost use Rattle.model.specs.Entries.{members_of, flags_known};
ghost use Rattle.words.specs.Parts.{part};
ghost use Rattle.image.specs.Image.{bytes_of};
ghost use Rattle.image.specs.WellFormed.{all_waiters};
ghost use Rattle.image.specs.Area.{pending_of, with_pending};
ghost use Rattle.awaiting.specs.Awaiting.{entry_at, place_in, Rising, Ready, Holds, Lists, entry_slots};

use model::delta_snapshot::Slot;
use records::Found;

// An entry of a lent list. It begins with the 52 bytes of a slot.
pub trait ListEntry {
    const WIDTH: usize;

    ghost WIDTH: { ℕ };

    ghost wide: { 52 ≤ WIDTH };
}

// A slot alone.
pub struct SlotEntry;

impl ListEntry for SlotEntry {
    const WIDTH: usize = 52;

    ghost WIDTH = { 52 };

    ghost wide = { lit≤ tt };
}

// A member of an answer: a slot, a flag byte and a value.
pub struct MemberEntry;

impl ListEntry for MemberEntry {
    const WIDTH: usize = 85;

    ghost WIDTH = { 85 };

    ghost wide = { lit≤ tt };
}

// The awaiting slots that some bytes begin with.
#[derive(Clone, Copy)]
pub struct Awaiting<'a> {
    pub bytes: &'a [u8],
    pub count: usize,
    pub ghost rising: { Rising count bytes.now },
}

impl<'a> Awaiting<'a> {
    ghost use Rattle.awaiting.specs.Lent.{all_of};

    // The place of a slot among them.
    pub fn find(self, slot: Slot) -> Found
        ensures { result ≡ place_in slot (all_of self.entry) }
    {
        records::search(self.bytes, layout::AWAITING_SIZE, self.count, slot)
    }

    // The waiters of awaiting slot i.
    fn waiters_at(self, i: usize) -> u64
        requires { i < self.count }
        ensures { result ≡ (entry_at i self.entry.bytes.now).waiters }
    {
        words::read_u64(
            self.bytes,
            i * layout::AWAITING_SIZE + layout::WAITERS_OFFSET,
        )
    }

    // Whether awaiting slot i is taken.
    fn taken_at(self, i: usize) -> bool
        requires { i < self.count }
        ensures { result ≡ (entry_at i self.entry.bytes.now).taken }
    {
        words::read_u64(self.bytes, i * layout::AWAITING_SIZE + layout::TAKEN_OFFSET) != 0
    }

    // The waiters of a slot: 0 if it awaits nothing.
    pub fn waiters(self, slot: Slot) -> u64
        ensures { result ≡ reads.waiters_of slot (all_of self.entry) }
    {
        let Ok(i) = self.find(slot) else {
            return 0;
        };
        self.waiters_at(i)
    }

    // Whether a slot awaits an answer and is taken.
    pub fn is_taken(self, slot: Slot) -> bool
        ensures { result ≡ reads.is_taken slot (all_of self.entry) }
    {
        let Ok(i) = self.find(slot) else {
            return false;
        };
        self.taken_at(i)
    }

    // Whether a slot awaits an answer.
    pub fn is_awaiting(self, slot: Slot) -> bool
        ensures { result ≡ reads.is_awaiting slot (all_of self.entry) }
    {
        self.find(slot).is_ok()
    }

    // The number of the queue's slots: those that are not taken.
    pub fn queue_len(self) -> usize
        ensures { result ≡ length (reads.queued (all_of self.entry)) }
    {
        (0..self.count).filter(|i| !self.taken_at(*i)).count()
    }

    // Lists the queue's slots, rising, to the output; their number.
    fn list_queued(self, out: &mut [u8]) -> usize
        requires { Ready self.count self.bytes.now × (52 * length (reads.queued (all_of self)) ≤ length out.old) }
        ensures { Lists result out.new (all_of self.entry) out.old }
    {
        let mut k = 0;
        for i in 0..self.count {
            if !self.taken_at(i) {
                let at = i * layout::AWAITING_SIZE + 4;
                words::place(out, k * 52, &self.bytes[at..at + 52]);
                k += 1;
            }
        }
        k
    }

    // Whether every slot of a lent list is taken.
    pub fn all_taken<E: ListEntry>(self, list: &[u8]) -> bool
        ensures { result ≡ reads.all_taken (entry_slots E.WIDTH list.now) (all_of self.entry) }
    {
        list.chunks_exact(E::WIDTH)
            .all(|entry| self.is_taken(entries::read_slot(entry, 0)))
    }

    // The waiters that an answer to the slots of a lent list wakes.
    pub fn woken<E: ListEntry>(self, list: &[u8]) -> u64
        requires waiters_fit { all_waiters (all_of self) < 2 ^ 32 }
        requires distinct { reads.has_duplicate (entry_slots E.WIDTH list.now) ≡ false }
        ensures { result ≡ reads.woken (entry_slots E.WIDTH list.now) (all_of self.entry) }
    {
        list.chunks_exact(E::WIDTH)
            .map(|entry| self.waiters(entries::read_slot(entry, 0)))
            .sum()
    }

    // The waiters that the members of a lent answer wake with a value.
    pub fn woken_valued(self, list: &[u8]) -> u64
        requires waiters_fit { all_waiters (all_of self) < 2 ^ 32 }
        requires distinct { reads.has_duplicate (entry_slots 85 list.now) ≡ false }
        ensures { result ≡ reads.woken (reads.valued_slots (members_of list.now)) (all_of self.entry) }
    {
        list.chunks_exact(85)
            .filter(|member| member[52] != 0)
            .map(|member| self.waiters(entries::read_slot(member, 0)))
            .sum()
    }
}

// An unserved read: the slot joins the queue or, if it awaits already, gains a waiter. The number of awaiting slots then.
pub fn join(s: &mut [u8], n: usize, slot: Slot) -> usize
    requires { Ready n s.old × (length (reads.join slot (pending_of n s.old)) ≤ 64) }
    ensures { Holds result s.new n (reads.join slot (pending_of n s.old)) s.old }
{
    let awaiting = Awaiting { bytes: s, count: n };
    match awaiting.find(slot) {
        Ok(i) => {
            let w = awaiting.waiters_at(i);
            words::write_u64(s, i * layout::AWAITING_SIZE + layout::WAITERS_OFFSET, w + 1);
            n
        }
        Err(i) => {
            // One waiter, not taken.
            records::insert_entry(s, n, i, slot, [1, 0, 0]);
            n + 1
        }
    }
}

// Marks all awaiting slots taken.
fn mark_taken(s: &mut [u8], n: usize)
    requires { Ready n s.old }
    ensures { s.new ≡ with_pending n (reads.take_queued (pending_of n s.old)) s.old }
{
    for i in 0..n {
        words::write_u64(s, i * layout::AWAITING_SIZE + layout::TAKEN_OFFSET, 1);
    }
}

// A take: lists the queue's slots, rising, to the output and marks them taken; their number.
pub fn take_queued(s: &mut [u8], n: usize, out: &mut [u8]) -> usize
    requires { Ready n s.old × (52 * length (reads.queued (pending_of n s.old)) ≤ length out.old) }
    ensures { Lists result out.new (pending_of n s.old) out.old × (s.new ≡ with_pending n (reads.take_queued (pending_of n s.old)) s.old) }
{
    let k = Awaiting { bytes: s, count: n }.list_queued(out);
    mark_taken(s, n);
    k
}

// Takes awaiting slot i of n away: those after it move down, and the last one's bytes are 0.
fn remove_at(s: &mut [u8], n: usize, i: usize)
    requires { (i < n) × (n * awaiting_size ≤ length s.old) }
    ensures { s.new ≡ take (i * awaiting_size) s.old ++ part ((i + 1) * awaiting_size) ((n - (i + 1)) * awaiting_size) s.old ++ replicate awaiting_size 0 ++ drop (n * awaiting_size) s.old }
{
    words::move_down(
        s,
        i * layout::AWAITING_SIZE,
        (n - (i + 1)) * layout::AWAITING_SIZE,
        layout::AWAITING_SIZE,
    );
    words::clear(s, (n - 1) * layout::AWAITING_SIZE, layout::AWAITING_SIZE);
}

// Takes a slot out of the n awaiting ones; the number of awaiting slots then.
pub fn remove(s: &mut [u8], n: usize, slot: Slot) -> usize
    requires { Ready n s.old }
    ensures { Holds result s.new n (reads.remove_pending slot (pending_of n s.old)) s.old }
{
    let Ok(i) = (Awaiting { bytes: s, count: n }).find(slot) else {
        return n;
    };
    remove_at(s, n, i);
    n - 1
}

// Whether a lent list names a slot.
fn names<E: ListEntry>(list: &[u8], slot: Slot) -> bool
    ensures { result ≡ mem slot (entry_slots E.WIDTH list.now) }
{
    list.chunks_exact(E::WIDTH)
        .any(|entry| entries::read_slot(entry, 0) == slot)
}

// Whether a lent list names a slot twice.
pub fn has_duplicate<E: ListEntry>(list: &[u8]) -> bool
    ensures { result ≡ reads.has_duplicate (entry_slots E.WIDTH list.now) }
{
    let mut rest = list;
    while let Some((entry, later)) = rest.split_at_checked(E::WIDTH) {
        if names::<E>(later, entries::read_slot(entry, 0)) {
            return true;
        }
        rest = later;
    }
    false
}

// Whether every member of a lent answer has a flag byte 0 or 1.
pub fn flags_known(list: &[u8]) -> bool
    ensures { result ≡ flags_known list.now }
{
    list.chunks_exact(85).all(|member| member[52] <= 1)
}

// The number of refused members of a lent answer.
pub fn refused_members(list: &[u8]) -> usize
    ensures { result ≡ length (reads.refused_slots (members_of list.now)) }
{
    list.chunks_exact(85)
        .filter(|member| member[52] == 0)
        .count()
}

// Takes the slots of a lent list out of the n awaiting ones; the number of awaiting slots then.
pub fn remove_all<E: ListEntry>(s: &mut [u8], n: usize, list: &[u8]) -> usize
    requires { Ready n s.old }
    ensures { Holds result s.new n (reads.remove_all_pending (entry_slots E.WIDTH list.now) (pending_of n s.old)) s.old }
{
    let mut k = n;
    for entry in list.chunks_exact(E::WIDTH) {
        k = remove(s, k, entries::read_slot(entry, 0));
    }
    k
}
