// The public calls joined to demand 3. Each function but `demand_3` calls the public function of its name:
// on every argument and every content of the bytes that is a call as the theorem takes it.
#![tactic(auto)]

ghost use Rattle.replies.specs.Replies.{open_reply, install_reply, look_reply, put_reply, advance_reply, read_reply, take_reply, answer_reply};
ghost use Rattle.public_calls.specs.PublicCalls as calls;
ghost use Rattle.public_calls.specs.PublicCalls.{Made};
ghost use Rattle.public_calls.specs.Demand3ForCalls.{DemandForCalls};

use model::delta_snapshot::{Retention, Slot};
use model::storage_memo::{B256, ReadAnchor, U256};
use store::{
    AdvanceReply, AnswerReply, InstallReply, LookReply, OpenReply, PutReply, ReadReply, TakeReply,
};

// Demand 3 over any list of calls of the public functions. The contract is what is claimed, so that the gate fails without the proof.
pub fn demand_3()
    ensures { DemandForCalls }
{}

fn open(s: &mut [u8], capacity: u64, max_depth: u64, retention: Retention) -> OpenReply
    ensures { Made (calls.open_store capacity max_depth retention) s.old s.new (open_reply result) }
{
    store::open(s, capacity, max_depth, retention)
}

fn install(s: &mut [u8], anchor: ReadAnchor) -> InstallReply
    ensures { Made (calls.install anchor) s.old s.new (install_reply result) }
{
    store::install(s, anchor)
}

fn look(s: &[u8], anchor: ReadAnchor, slot: Slot) -> LookReply
    ensures { Made (calls.look anchor slot) s.now s.now (look_reply result) }
{
    store::look(s, anchor, slot)
}

fn get(s: &mut [u8], anchor: ReadAnchor, slot: Slot) -> LookReply
    ensures { Made (calls.get anchor slot) s.old s.new (look_reply result) }
{
    store::get(s, anchor, slot)
}

fn put(s: &mut [u8], anchor: ReadAnchor, slot: Slot, value: U256) -> PutReply
    ensures { Made (calls.put anchor slot value) s.old s.new (put_reply result) }
{
    store::put(s, anchor, slot, value)
}

fn advance(
    s: &mut [u8],
    child: ReadAnchor,
    parent_hash: B256,
    skip: u64,
    addresses: &[u8],
    writes: &[u8],
    work: &mut [u8],
    out: &mut [u8],
) -> AdvanceReply
    ensures { Made (calls.advance child parent_hash skip addresses.now writes.now work.old out.old) s.old s.new (advance_reply result out.new) }
{
    store::advance(s, child, parent_hash, skip, addresses, writes, work, out)
}

fn read(s: &mut [u8], anchor: ReadAnchor, slot: Slot) -> ReadReply
    ensures { Made (calls.read anchor slot) s.old s.new (read_reply result) }
{
    store::read(s, anchor, slot)
}

fn take(s: &mut [u8], anchor: ReadAnchor, out: &mut [u8]) -> TakeReply
    ensures { Made (calls.take anchor out.old) s.old s.new (take_reply result out.new) }
{
    store::take(s, anchor, out)
}

fn answer(s: &mut [u8], anchor: ReadAnchor, members: &[u8]) -> AnswerReply
    ensures { Made (calls.answer anchor members.now) s.old s.new (answer_reply result) }
{
    store::answer(s, anchor, members)
}

fn answer_failed(s: &mut [u8], anchor: ReadAnchor, slots: &[u8]) -> AnswerReply
    ensures { Made (calls.answer_failed anchor slots.now) s.old s.new (answer_reply result) }
{
    store::answer_failed(s, anchor, slots)
}
