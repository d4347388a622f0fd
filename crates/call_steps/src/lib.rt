// One call of a call list on a store.
#![tactic(auto)]

ghost use Rattle.std.specs.Prelude.{◌≡◌, List, ℕ, ◌+◌, ◌*◌, ◌/◌, ◌≤◌, length, None, is_some};
ghost use Rattle.model.specs.Store as calls;
ghost use Rattle.model.specs.Store.{on_store, at_anchor};
ghost use Rattle.image.specs.Image.{decode, bytes_step};
ghost use Rattle.image.specs.Lent.{IsStore};
ghost use Rattle.reader.specs.Answers.{slots_at, members_at};
ghost use Rattle.lent_lists.specs.Members.{MembersThere};
ghost use Rattle.call_list.specs.Listed as listed;
ghost use Rattle.call_list.specs.Listed.{OpenLimits};
ghost use Rattle.call_list.specs.Meaning.{default_limits, meaning};
ghost use Rattle.call_reader.specs.Calls.{PreparedWithin, prepared_of, slot_call_of, anchored_of};
ghost use Rattle.call_steps.specs.Steps.{AnchoredThere, CallThere, meant, with_lent, SteppedAs};

use call_answers::{CallAnswer, CallReply};
use call_reader::{AnchoredCall, ListedCall, Prepared, SlotCall};
use model::delta_snapshot::{DEFAULT_MAX_DEPTH, Retention};
use model::refusal::Refusal;
use model::storage_memo::{ReadAnchor, U256};
use reader::Span;

// An open that names its limits.
fn open(s: &mut [u8], capacity: u64, depth: u64, retention: Retention) -> CallReply
    ensures { (d : OpenLimits) (w : ℕ) (e : List ℕ) → SteppedAs result s.new e (bytes_step s.old (with_lent (meaning d (listed.open_with capacity (record { max_depth = depth; retention = retention }))) w e)) e }
{
    store::open(s, capacity, depth, retention)?;
    Ok(CallAnswer::Open)
}

// An open of byte 0.
fn open_default(s: &mut [u8], capacity: u64) -> CallReply
    ensures { (w : ℕ) (e : List ℕ) → SteppedAs result s.new e (bytes_step s.old (with_lent (meaning default_limits (listed.open_default capacity)) w e)) e }
{
    open(s, capacity, DEFAULT_MAX_DEPTH, Retention::DEFAULT)
}

// An answer.
fn answer(
    list: &[u8],
    span: Span,
    s: &mut [u8],
    anchor: ReadAnchor,
    members: &mut [u8],
) -> CallReply
    requires { IsStore s.old × MembersThere list.now span × (length list.now / 53 * 85 ≤ length members.old) }
    ensures { (w : ℕ) (e : List ℕ) → SteppedAs result s.new e (bytes_step s.old (with_lent (on_store (at_anchor anchor (calls.answer (members_at list.now span)))) w e)) e }
{
    lent_lists::expand_members(list, span, members);
    let n = span.count * 85;
    let named = &members[0..n];
    Ok(CallAnswer::from(unchecked_reads::answer(s, anchor, named)?))
}

// The answer of a failed round.
fn answer_failed(list: &[u8], span: Span, s: &mut [u8], anchor: ReadAnchor) -> CallReply
    requires { IsStore s.old × (span.start + span.count * 52 ≤ length list.now) }
    ensures { (w : ℕ) (e : List ℕ) → SteppedAs result s.new e (bytes_step s.old (with_lent (on_store (at_anchor anchor (calls.answer_failed (slots_at list.now span)))) w e)) e }
{
    let start = span.start;
    let slots = &list[start..start + span.count * 52];
    Ok(CallAnswer::from(unchecked_reads::answer_failed(s, anchor, slots)?))
}

// A call on a slot.
fn on_slot(anchor: ReadAnchor, call: SlotCall, s: &mut [u8]) -> CallReply
    requires { IsStore s.old }
    ensures { (w : ℕ) (e : List ℕ) → SteppedAs result s.new e (bytes_step s.old (with_lent (on_store (at_anchor anchor (calls.on_slot (slot_call_of call)))) w e)) e }
{
    match call {
        SlotCall::Look(slot) => Ok(CallAnswer::from(unchecked_calls::look(s, anchor, slot)?)),
        SlotCall::Get(slot) => Ok(CallAnswer::from(unchecked_calls::get(s, anchor, slot)?)),
        SlotCall::Put(slot, value) => {
            unchecked_calls::put(s, anchor, slot, value)?;
            Ok(CallAnswer::Put)
        }
        SlotCall::Read(slot) => Ok(CallAnswer::from(unchecked_reads::read(s, anchor, slot)?)),
    }
}

// A call at an anchor.
fn anchored(
    list: &[u8],
    anchor: ReadAnchor,
    call: AnchoredCall,
    s: &mut [u8],
    entries: &mut [u8],
    members: &mut [u8],
) -> CallReply
    requires { IsStore s.old × AnchoredThere list.now call × (length list.now / 53 * 85 ≤ length members.old) }
    ensures { (w : ℕ) → SteppedAs result s.new entries.new (bytes_step s.old (with_lent (on_store (at_anchor anchor (anchored_of list.now call))) w entries.old)) entries.old }
{
    match call {
        AnchoredCall::OnSlot(c) => on_slot(anchor, c, s),
        AnchoredCall::Take => {
            let listed = unchecked_reads::take(s, anchor, entries)?;
            Ok(CallAnswer::Take(listed as usize))
        }
        AnchoredCall::Answer(span) => answer(list, span, s, anchor, members),
        AnchoredCall::AnswerFailed(span) => answer_failed(list, span, s, anchor),
    }
}

// An advance.
fn advance(
    list: &[u8],
    child: ReadAnchor,
    parent_hash: U256,
    prepared: Prepared,
    s: &mut [u8],
    work: &mut [u8],
    entries: &mut [u8],
) -> CallReply
    requires { IsStore s.old × PreparedWithin list.now prepared }
    ensures { SteppedAs result s.new entries.new (bytes_step s.old (with_lent (on_store (calls.advance child parent_hash (prepared_of list.now prepared))) (length work.old) entries.old)) entries.old }
{
    let addresses = prepared.relevance;
    let writes = prepared.writes;
    let first_address = addresses.start;
    let first_write = writes.start;
    let report = unchecked_advance::advance(
        s,
        child,
        parent_hash,
        prepared.skip,
        &list[first_address..first_address + addresses.count * 20],
        &list[first_write..first_write + writes.count * 84],
        work,
        entries,
    )?;
    Ok(CallAnswer::from(report))
}

// A call on a store known to be right.
fn on_store(
    list: &[u8],
    call: ListedCall,
    s: &mut [u8],
    work: &mut [u8],
    entries: &mut [u8],
    members: &mut [u8],
) -> CallReply
    requires { IsStore s.old × CallThere list.now call × (length list.now / 53 * 85 ≤ length members.old) }
    ensures { SteppedAs result s.new entries.new (bytes_step s.old (with_lent (meant list.now call) (length work.old) entries.old)) entries.old }
{
    match call {
        ListedCall::OpenDefault(capacity) => open_default(s, capacity),
        ListedCall::OpenWith(capacity, depth, retention) => open(s, capacity, depth, retention),
        ListedCall::Install(anchor) => Ok(CallAnswer::from(unchecked_calls::install(s, anchor)?)),
        ListedCall::Advance(child, parent_hash, prepared) => advance(
            list,
            child,
            parent_hash,
            prepared,
            s,
            work,
            entries,
        ),
        ListedCall::Anchored(anchor, c) => anchored(list, anchor, c, s, entries, members),
    }
}

// A call on bytes that are no store.
fn on_other(call: ListedCall, s: &mut [u8]) -> CallReply
    requires { decode s.old ≡ None }
    ensures { (l : List ℕ) (w : ℕ) (e : List ℕ) → SteppedAs result s.new e (bytes_step s.old (with_lent (meant l call) w e)) e }
{
    match call {
        ListedCall::OpenDefault(capacity) => open_default(s, capacity),
        ListedCall::OpenWith(capacity, depth, retention) => open(s, capacity, depth, retention),
        ListedCall::Install(_) => Err(Refusal::NotAStore),
        ListedCall::Advance(_, _, _) => Err(Refusal::NotAStore),
        ListedCall::Anchored(_, _) => Err(Refusal::NotAStore),
    }
}

// A call of a list on the store's bytes; `unchecked_calls` says whether they are a store.
pub fn step(
    list: &[u8],
    call: ListedCall,
    known: bool,
    s: &mut [u8],
    work: &mut [u8],
    entries: &mut [u8],
    members: &mut [u8],
) -> CallReply
    requires { (known ≡ is_some (decode s.old)) × CallThere list.now call × (length list.now / 53 * 85 ≤ length members.old) }
    ensures { SteppedAs result s.new entries.new (bytes_step s.old (with_lent (meant list.now call) (length work.old) entries.old)) entries.old }
{
    if known {
        on_store(list, call, s, work, entries, members)
    } else {
        on_other(call, s)
    }
}
