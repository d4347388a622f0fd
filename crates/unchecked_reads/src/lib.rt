// The calls read, take, answer and answer_failed on bytes that are known to be a store.
#![tactic(auto, using(layers::proofs::Header::header_room, image::proofs::Lent::decoded_some, header::proofs::Guards::past_guard))]

ghost use Rattle.std.specs.Prelude.{◌≡◌, true, false, not, ◌&&◌, leb, ◌∷◌, ◌+◌, ◌*◌, ◌^◌, ◌≤◌, ◌<◌, length, None, Some, is_some};
ghost use Rattle.model.specs.Layers.{record_count};
ghost use Rattle.model.specs.Reads as reads;
ghost use Rattle.model.specs.Store as calls;
ghost use Rattle.model.specs.Store.{on_store, at_anchor, on_slot, resolved};
ghost use Rattle.model.specs.Entries.{slots_of, members_of};
ghost use Rattle.image.specs.Image.{decode, overlay, bytes_step};
ghost use Rattle.image.specs.WellFormed.{all_waiters};
ghost use Rattle.image.specs.Lent.{store_of, generation_of, Installed as HasGeneration};
ghost use Rattle.records.specs.Records.{place_in};
ghost use Rattle.awaiting.specs.Awaiting.{Lists, entry_slots};
ghost use Rattle.awaiting.specs.Lent.{all_of};
ghost use Rattle.replies.specs.Replies.{read_reply, answer_reply, alone, with_output, Stepped, Took};
ghost use Rattle.unchecked_reads.specs.Inner.{awaited, Open, answer_refusal};

use awaiting::{Awaiting, ListEntry, MemberEntry, SlotEntry};
use layers::{LentGeneration, LentStore};
use model::delta_snapshot::Slot;
use model::refusal::Refusal;
use model::storage_memo::{ReadAnchor, U256};
use records::Found;
use replies::{AnswerReply, Answered, ReadOutcome, ReadReply, TakeReply};

// The number of awaiting slots.
fn awaiting_count(generation: LentGeneration) -> usize
    ensures { result ≡ length (generation_of generation.entry.bytes.now).pending }
{
    words::read_u64(generation.bytes, layout::AWAITING_COUNT_OFFSET) as usize
}

// The awaiting slots.
fn awaiting_in<'a>(generation: LentGeneration<'a>) -> Awaiting<'a>
    ensures slots_are { all_of result ≡ (generation_of generation.entry.bytes.now).pending }
    ensures waiters_fit { all_waiters (all_of result) < 2 ^ 32 }
{
    Awaiting {
        bytes: &generation.bytes[layout::AWAITING_OFFSET..],
        count: awaiting_count(generation),
    }
}

// Whether a slot would be the 65th awaiting an answer. `joined` says whether it awaits one already.
fn queue_full(generation: LentGeneration, joined: bool) -> bool
    ensures { result ≡ (not joined && leb 64 (length (generation_of generation.entry.bytes.now).pending)) }
{
    !joined && 64 <= awaiting_count(generation)
}

// An unserved read's slot joins the queue or gains a waiter.
fn join(s: &mut [u8], slot: Slot)
    requires { HasGeneration s.old × (length (reads.join slot (generation_of s.old).pending) ≤ 64) }
    ensures { s.new ≡ overlay (awaited (store_of s.old).config (generation_of s.old) (reads.join slot (generation_of s.old).pending)) s.old }
{
    let n = awaiting_count(LentGeneration { bytes: s });
    let count = awaiting::join(&mut s[layout::AWAITING_OFFSET..], n, slot);
    words::write_u64(s, layout::AWAITING_COUNT_OFFSET, count as u64);
}

// Takes the slots of a lent list out of the awaiting ones.
fn remove_all<E: ListEntry>(s: &mut [u8], list: &[u8])
    requires { HasGeneration s.old }
    ensures { s.new ≡ overlay (awaited (store_of s.old).config (generation_of s.old) (reads.remove_all_pending (entry_slots E.WIDTH list.now) (generation_of s.old).pending)) s.old }
{
    let n = awaiting_count(LentGeneration { bytes: s });
    let count = awaiting::remove_all::<E>(&mut s[layout::AWAITING_OFFSET..], n, list);
    words::write_u64(s, layout::AWAITING_COUNT_OFFSET, count as u64);
}

// Lists the queue's slots to the output and marks them taken; their number.
fn take_queued(s: &mut [u8], out: &mut [u8]) -> usize
    requires { HasGeneration s.old × (52 * length (reads.queued (generation_of s.old).pending) ≤ length out.old) }
    ensures { Lists result out.new (generation_of s.old).pending out.old × (s.new ≡ overlay (awaited (store_of s.old).config (generation_of s.old) (reads.take_queued (generation_of s.old).pending)) s.old) }
{
    let n = awaiting_count(LentGeneration { bytes: s });
    awaiting::take_queued(&mut s[layout::AWAITING_OFFSET..], n, out)
}

// A take (`take_queued`): lists the queue, rising, and marks it taken.
pub fn take(s: &mut [u8], anchor: ReadAnchor, out: &mut [u8]) -> TakeReply
    requires { is_some (decode s.old) ≡ true }
    ensures { Took result s.new out.new out.old (bytes_step s.old (with_output (on_store (at_anchor anchor calls.take)) out.old)) }
{
    header::guard(LentStore { bytes: s }, anchor)?;
    let awaiting = awaiting_in(LentGeneration { bytes: s });
    if out.len() / 52 < awaiting.queue_len() {
        return Err(Refusal::OutputTooShort);
    }
    Ok(take_queued(s, out) as u64)
}

// A read of a served slot, whose record in the top stands or goes at `place`: its own use is set, and the read is counted.
fn serve(s: &mut [u8], place: Found, slot: Slot, v: U256) -> ReadReply
    requires { Open s.old × (resolved (store_of s.old).config.retention (generation_of s.old) slot ≡ Some v) × (place ≡ place_in slot (generation_of s.old).top) }
    ensures { Stepped (read_reply result) s.new (bytes_step s.old (alone (on_store (at_anchor (generation_of s.old).anchor (on_slot (calls.read slot)))))) }
{
    if !top::has_room(LentGeneration { bytes: s }, place) {
        return Err(Refusal::OverCapacity);
    }
    top::touch_top(s, place, slot);
    totals::record_read(s, true, false);
    Ok(ReadOutcome::Value(v))
}

// A read of another slot: it awaits an answer, and the read is counted.
fn wait(s: &mut [u8], slot: Slot) -> ReadReply
    requires { Open s.old × (resolved (store_of s.old).config.retention (generation_of s.old) slot ≡ None) }
    ensures { Stepped (read_reply result) s.new (bytes_step s.old (alone (on_store (at_anchor (generation_of s.old).anchor (on_slot (calls.read slot)))))) }
{
    let generation = LentGeneration { bytes: s };
    let awaiting = awaiting_in(generation);
    let joined = awaiting.is_awaiting(slot);
    if queue_full(generation, joined) {
        return Err(Refusal::QueueFull);
    }
    let w = awaiting.waiters(slot);
    join(s, slot);
    totals::record_read(s, false, joined);
    Ok(ReadOutcome::Waiting(w + 1))
}

// A read: the value of a served slot, else the slot awaits an answer.
pub fn read(s: &mut [u8], anchor: ReadAnchor, slot: Slot) -> ReadReply
    requires { is_some (decode s.old) ≡ true }
    ensures { Stepped (read_reply result) s.new (bytes_step s.old (alone (on_store (at_anchor anchor (on_slot (calls.read slot)))))) }
{
    header::guard(LentStore { bytes: s }, anchor)?;
    if 4294967295 <= words::read_u64(s, layout::ACCEPTED_OFFSET) {
        return Err(Refusal::ReadsExhausted);
    }
    let generation = LentGeneration { bytes: s };
    let place = generation.top_place(slot);
    let Some(v) = generation.resolved_at(place, slot) else {
        return wait(s, slot);
    };
    serve(s, place, slot, v)
}

// The refusal of an answer to the slots of a lent list at an anchor.
fn guard_answer<E: ListEntry>(
    store: LentStore,
    anchor: ReadAnchor,
    list: &[u8],
) -> Result<(), Refusal>
    ensures { result ≡ answer_refusal (entry_slots E.WIDTH list.now) (store_of store.entry.bytes.now).installed anchor }
{
    if awaiting::has_duplicate::<E>(list) {
        return Err(Refusal::NamesTwice);
    }
    header::guard(store, anchor)
}

// An answer of a round that failed as a whole: its slots go, and their waiters are refused.
pub fn answer_failed(s: &mut [u8], anchor: ReadAnchor, slots: &[u8]) -> AnswerReply
    requires { is_some (decode s.old) ≡ true }
    ensures { Stepped (answer_reply result) s.new (bytes_step s.old (alone (on_store (at_anchor anchor (calls.answer_failed (slots_of slots.now)))))) }
{
    guard_answer::<SlotEntry>(LentStore { bytes: s }, anchor, slots)?;
    let awaiting = awaiting_in(LentGeneration { bytes: s });
    if !awaiting.all_taken::<SlotEntry>(slots) {
        return Err(Refusal::NotTaken);
    }
    let members = (slots.len() / 52) as u64;
    let w = awaiting.woken::<SlotEntry>(slots);
    remove_all::<SlotEntry>(s, slots);
    totals::record_answer(s, members, 0, 0, w);
    Ok(Answered {
        members,
        errors: 0,
        woken: w,
    })
}

// Whether there is room for the records that the values of a lent answer add.
fn has_space(generation: LentGeneration, list: &[u8]) -> bool
    requires { reads.has_duplicate (entry_slots 85 list.now) ≡ false }
    ensures { result ≡ leb (record_count (reads.settle_members (generation_of generation.entry.bytes.now).anchor.number (members_of list.now) (generation_of generation.entry.bytes.now).top ∷ (generation_of generation.entry.bytes.now).base)) (store_of generation.entry.bytes.now).config.capacity }
{
    let b = generation.bytes;
    let free = (words::read_u64(b, layout::CAPACITY_OFFSET)
        - words::read_u64(b, layout::RECORDS_COUNT_OFFSET)) as usize;
    settling::added(generation, list) <= free
}

// An answer that is not refused: its values are put, its slots go, and it is counted.
fn finish(s: &mut [u8], list: &[u8]) -> AnswerReply
    requires { HasGeneration s.old × (reads.has_duplicate (entry_slots 85 list.now) ≡ false) × (reads.all_taken (entry_slots 85 list.now) (generation_of s.old).pending ≡ true) × (record_count (reads.settle_members (generation_of s.old).anchor.number (members_of list.now) (generation_of s.old).top ∷ (generation_of s.old).base) ≤ (store_of s.old).config.capacity) }
    ensures { Stepped (answer_reply result) s.new (bytes_step s.old (alone (on_store (at_anchor (generation_of s.old).anchor (calls.answer (members_of list.now)))))) }
{
    let members = (list.len() / 85) as u64;
    let errors = awaiting::refused_members(list) as u64;
    let awaiting = awaiting_in(LentGeneration { bytes: s });
    let w = awaiting.woken::<MemberEntry>(list);
    let valued = awaiting.woken_valued(list);
    settling::settle_members(s, list);
    remove_all::<MemberEntry>(s, list);
    totals::record_answer(s, members, errors, valued, w - valued);
    Ok(Answered {
        members,
        errors,
        woken: w,
    })
}

// An answer: a value wakes its slot's waiters and is put, a refusal wakes them with it.
pub fn answer(s: &mut [u8], anchor: ReadAnchor, members: &[u8]) -> AnswerReply
    requires { is_some (decode s.old) ≡ true }
    ensures { Stepped (answer_reply result) s.new (bytes_step s.old (alone (on_store (at_anchor anchor (calls.answer (members_of members.now)))))) }
{
    guard_answer::<MemberEntry>(LentStore { bytes: s }, anchor, members)?;
    let generation = LentGeneration { bytes: s };
    if !awaiting_in(generation).all_taken::<MemberEntry>(members) {
        return Err(Refusal::NotTaken);
    }
    if !has_space(generation, members) {
        return Err(Refusal::OverCapacity);
    }
    finish(s, members)
}
