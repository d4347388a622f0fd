// The store's calls on any lent bytes: each is refused, or done as its definition says. docs/REFERENCE.md describes each.
#![tactic(auto)]

ghost use Rattle.model.specs.Store as calls;
ghost use Rattle.model.specs.Store.{on_store, at_anchor, on_slot, open_store};
ghost use Rattle.model.specs.Entries.{slots_of};
ghost use Rattle.image.specs.Image.{bytes_step};
ghost use Rattle.replies.specs.Replies.{open_reply, install_reply, look_reply, put_reply, read_reply, answer_reply, alone, with_output, advance_call, answer_step, Stepped, Took, AdvancedAs};

use model::delta_snapshot::{Retention, Slot};
use model::refusal::Refusal;
use model::storage_memo::{B256, ReadAnchor, U256};
pub use replies::{
    AdvanceReply, AnswerReply, Answered, DeltaReport, InstallReply, Installed, LookReply,
    OpenReply, PutReply, ReadOutcome, ReadReply, TakeReply, WriteCounts,
};

// Makes the bytes a store with nothing installed. Refused by 1, 2 and 9.
pub fn open(s: &mut [u8], capacity: u64, max_depth: u64, retention: Retention) -> OpenReply
    ensures { Stepped (open_reply result) s.new (bytes_step s.old (alone (open_store capacity max_depth retention))) }
{
    if capacity == 0 {
        return Err(Refusal::CapacityOutOfRange);
    }
    if 4096 < capacity {
        return Err(Refusal::CapacityOutOfRange);
    }
    if 255 < max_depth {
        return Err(Refusal::DepthOutOfRange);
    }
    let n = capacity as usize;
    if s.len() < layout::RECORDS_OFFSET + layout::RECORD_SIZE * n {
        return Err(Refusal::LentTooShort);
    }
    unchecked_calls::open(s, capacity, max_depth, retention)
}

// Installs an anchor (`for_anchor`): the same changes nothing, another starts empty. Refused by 20.
pub fn install(s: &mut [u8], anchor: ReadAnchor) -> InstallReply
    ensures { Stepped (install_reply result) s.new (bytes_step s.old (alone (on_store (calls.install anchor)))) }
{
    if !check_store::is_store(s) {
        return Err(Refusal::NotAStore);
    }
    unchecked_calls::install(s, anchor)
}

// The value that a slot is served with (`snapshot_value`); changes nothing. Refused by 20, 21 and 22.
pub fn look(s: &[u8], anchor: ReadAnchor, slot: Slot) -> LookReply
    ensures { Stepped (look_reply result) s.now (bytes_step s.now (alone (on_store (at_anchor anchor (on_slot (calls.look slot)))))) }
{
    if !check_store::is_store(s) {
        return Err(Refusal::NotAStore);
    }
    unchecked_calls::look(s, anchor, slot)
}

// The same, and the use of a served slot is set (`StorageView::get`). Refused by 20, 21, 22 and 23.
pub fn get(s: &mut [u8], anchor: ReadAnchor, slot: Slot) -> LookReply
    ensures { Stepped (look_reply result) s.new (bytes_step s.old (alone (on_store (at_anchor anchor (on_slot (calls.get slot)))))) }
{
    if !check_store::is_store(s) {
        return Err(Refusal::NotAStore);
    }
    unchecked_calls::get(s, anchor, slot)
}

// Sets a slot's value and use (`settle`). Refused by 20, 21, 22 and 23.
pub fn put(s: &mut [u8], anchor: ReadAnchor, slot: Slot, value: U256) -> PutReply
    ensures { Stepped (put_reply result) s.new (bytes_step s.old (alone (on_store (at_anchor anchor (on_slot (calls.put slot value)))))) }
{
    if !check_store::is_store(s) {
        return Err(Refusal::NotAStore);
    }
    unchecked_calls::put(s, anchor, slot, value)
}

// One block on (`apply_prepared`): already current, carried, or cold. Refused by 20, 6, 7, 9 and 23. What `work` holds after it is free.
pub fn advance(
    s: &mut [u8],
    child: ReadAnchor,
    parent_hash: B256,
    skip: u64,
    addresses: &[u8],
    writes: &[u8],
    work: &mut [u8],
    out: &mut [u8],
) -> AdvanceReply
    ensures { AdvancedAs result s.new out.new (bytes_step s.old (advance_call child parent_hash skip addresses.now writes.now work.old out.old)) out.old }
{
    if check_store::is_store(s) {
        return unchecked_advance::advance(
            s,
            child,
            parent_hash,
            skip,
            addresses,
            writes,
            work,
            out,
        );
    }
    Err(Refusal::NotAStore)
}

// The value of a served slot, else the slot awaits an answer. Refused by 20, 21, 22, 25, 24 and 23.
pub fn read(s: &mut [u8], anchor: ReadAnchor, slot: Slot) -> ReadReply
    ensures { Stepped (read_reply result) s.new (bytes_step s.old (alone (on_store (at_anchor anchor (on_slot (calls.read slot)))))) }
{
    if !check_store::is_store(s) {
        return Err(Refusal::NotAStore);
    }
    unchecked_reads::read(s, anchor, slot)
}

// Lists the queue, rising, to the output and marks it taken. Refused by 20, 21, 22 and 27.
pub fn take(s: &mut [u8], anchor: ReadAnchor, out: &mut [u8]) -> TakeReply
    ensures { Took result s.new out.new out.old (bytes_step s.old (with_output (on_store (at_anchor anchor calls.take)) out.old)) }
{
    if !check_store::is_store(s) {
        return Err(Refusal::NotAStore);
    }
    unchecked_reads::take(s, anchor, out)
}

// The answer to taken slots: a value is put and wakes their waiters, a refusal wakes them with it. Refused by 3, 20, 8, 21, 22, 26 and 23.
pub fn answer(s: &mut [u8], anchor: ReadAnchor, members: &[u8]) -> AnswerReply
    ensures { Stepped (answer_reply result) s.new (answer_step s.old anchor members.now) }
{
    if !awaiting::flags_known(members) {
        return Err(Refusal::UnknownForm);
    }
    if !check_store::is_store(s) {
        return Err(Refusal::NotAStore);
    }
    unchecked_reads::answer(s, anchor, members)
}

// The answer of a round that failed as a whole: its slots go, and their waiters are refused. Refused by 20, 8, 21, 22 and 26.
pub fn answer_failed(s: &mut [u8], anchor: ReadAnchor, slots: &[u8]) -> AnswerReply
    ensures { Stepped (answer_reply result) s.new (bytes_step s.old (alone (on_store (at_anchor anchor (calls.answer_failed (slots_of slots.now)))))) }
{
    if !check_store::is_store(s) {
        return Err(Refusal::NotAStore);
    }
    unchecked_reads::answer_failed(s, anchor, slots)
}
