// The calls that are exported twice: on any bytes, and on bytes that are known to be a store.
ghost use Rattle.std.specs.Prelude.{◌≡◌, true, List, ℕ, is_some};
ghost use Rattle.model.specs.Store as calls;
ghost use Rattle.model.specs.Store.{on_store, at_anchor, on_slot};
ghost use Rattle.model.specs.Entries.{slots_of};
ghost use Rattle.image.specs.Image.{decode, bytes_step};
ghost use Rattle.replies.specs.Replies.{install_reply, put_reply, read_reply, answer_reply, alone, with_output, advance_call, answer_step, Stepped, Took, AdvancedAs};

use model::delta_snapshot::Slot;
use model::refusal::Refusal;
use model::storage_memo::{B256, ReadAnchor, U256};
use store::{AdvanceReply, AnswerReply, InstallReply, PutReply, ReadReply, TakeReply};

// Each call does what its definition says.
pub trait StoreCalls {
    // The bytes that a call may be made on.
    ghost Lent: { List ℕ → Type 0 };

    fn install(s: &mut [u8], anchor: ReadAnchor) -> InstallReply
        requires { Lent s.old }
        ensures { Stepped (install_reply result) s.new (bytes_step s.old (alone (on_store (calls.install anchor)))) };

    fn put(s: &mut [u8], anchor: ReadAnchor, slot: Slot, value: U256) -> PutReply
        requires { Lent s.old }
        ensures { Stepped (put_reply result) s.new (bytes_step s.old (alone (on_store (at_anchor anchor (on_slot (calls.put slot value)))))) };

    fn advance(
        s: &mut [u8],
        child: ReadAnchor,
        parent_hash: B256,
        skip: u64,
        addresses: &[u8],
        writes: &[u8],
        work: &mut [u8],
        out: &mut [u8],
    ) -> AdvanceReply
        requires { Lent s.old }
        ensures { AdvancedAs result s.new out.new (bytes_step s.old (advance_call child parent_hash skip addresses.now writes.now work.old out.old)) out.old };

    fn read(s: &mut [u8], anchor: ReadAnchor, slot: Slot) -> ReadReply
        requires { Lent s.old }
        ensures { Stepped (read_reply result) s.new (bytes_step s.old (alone (on_store (at_anchor anchor (on_slot (calls.read slot)))))) };

    fn take(s: &mut [u8], anchor: ReadAnchor, out: &mut [u8]) -> TakeReply
        requires { Lent s.old }
        ensures { Took result s.new out.new out.old (bytes_step s.old (with_output (on_store (at_anchor anchor calls.take)) out.old)) };

    fn answer(s: &mut [u8], anchor: ReadAnchor, members: &[u8]) -> AnswerReply
        requires { Lent s.old }
        ensures { Stepped (answer_reply result) s.new (answer_step s.old anchor members.now) };

    fn answer_failed(s: &mut [u8], anchor: ReadAnchor, slots: &[u8]) -> AnswerReply
        requires { Lent s.old }
        ensures { Stepped (answer_reply result) s.new (bytes_step s.old (alone (on_store (at_anchor anchor (calls.answer_failed (slots_of slots.now)))))) };
}

// On any bytes: the calls of `store`, which check them each time.
pub struct Checked;

impl StoreCalls for Checked {
    ghost Lent = { λ b. Unit {0} };

    fn install(s: &mut [u8], anchor: ReadAnchor) -> InstallReply {
        store::install(s, anchor)
    }

    fn put(s: &mut [u8], anchor: ReadAnchor, slot: Slot, value: U256) -> PutReply {
        store::put(s, anchor, slot, value)
    }

    fn advance(
        s: &mut [u8],
        child: ReadAnchor,
        parent_hash: B256,
        skip: u64,
        addresses: &[u8],
        writes: &[u8],
        work: &mut [u8],
        out: &mut [u8],
    ) -> AdvanceReply {
        store::advance(s, child, parent_hash, skip, addresses, writes, work, out)
    }

    fn read(s: &mut [u8], anchor: ReadAnchor, slot: Slot) -> ReadReply {
        store::read(s, anchor, slot)
    }

    fn take(s: &mut [u8], anchor: ReadAnchor, out: &mut [u8]) -> TakeReply {
        store::take(s, anchor, out)
    }

    fn answer(s: &mut [u8], anchor: ReadAnchor, members: &[u8]) -> AnswerReply {
        store::answer(s, anchor, members)
    }

    fn answer_failed(s: &mut [u8], anchor: ReadAnchor, slots: &[u8]) -> AnswerReply {
        store::answer_failed(s, anchor, slots)
    }
}

// On bytes that are known to be a store.
pub struct Unchecked;

impl StoreCalls for Unchecked {
    ghost Lent = { λ b. is_some (decode b) ≡ true };

    fn install(s: &mut [u8], anchor: ReadAnchor) -> InstallReply {
        unchecked_calls::install(s, anchor)
    }

    fn put(s: &mut [u8], anchor: ReadAnchor, slot: Slot, value: U256) -> PutReply {
        unchecked_calls::put(s, anchor, slot, value)
    }

    fn advance(
        s: &mut [u8],
        child: ReadAnchor,
        parent_hash: B256,
        skip: u64,
        addresses: &[u8],
        writes: &[u8],
        work: &mut [u8],
        out: &mut [u8],
    ) -> AdvanceReply {
        unchecked_advance::advance(s, child, parent_hash, skip, addresses, writes, work, out)
    }

    fn read(s: &mut [u8], anchor: ReadAnchor, slot: Slot) -> ReadReply {
        unchecked_reads::read(s, anchor, slot)
    }

    fn take(s: &mut [u8], anchor: ReadAnchor, out: &mut [u8]) -> TakeReply {
        unchecked_reads::take(s, anchor, out)
    }

    #[tactic(auto, using(crate::proofs::Flags::flags_unknown))]
    fn answer(s: &mut [u8], anchor: ReadAnchor, members: &[u8]) -> AnswerReply {
        if !awaiting::flags_known(members) {
            return Err(Refusal::UnknownForm);
        }
        unchecked_reads::answer(s, anchor, members)
    }

    fn answer_failed(s: &mut [u8], anchor: ReadAnchor, slots: &[u8]) -> AnswerReply {
        unchecked_reads::answer_failed(s, anchor, slots)
    }
}
