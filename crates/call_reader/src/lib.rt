// The reader of calls: each call of a call list, by its code.
#![tactic(auto)]

ghost use Rattle.std.specs.Prelude.{◌≡◌, ◌<◌, IfOk};
ghost use Rattle.call_list.specs.CallList.{parse_open, parse_install, parse_prepared, parse_advance, parse_anchored, parse_answer, parse_call};
ghost use Rattle.reader.specs.Reading.{Reads, as_is};
ghost use Rattle.call_reader.specs.Calls.{prepared_of, anchored_of, call_of, parse_limit, parse_rest, CodeSays, PreparedWithin, AnchoredWithin, CallWithin};

use model::delta_snapshot::{Retention, Slot};
use model::storage_memo::{ReadAnchor, U256};
use reader::{FaultKind, Reader, Span};

// A call on one slot.
#[derive(Clone, Copy, Debug, PartialEq, Eq)]
pub enum SlotCall {
    Look(Slot),
    Get(Slot),
    Put(Slot, U256),
    Read(Slot),
}

// A call at an anchor. An answer's members are 53 or 85 bytes each, a failed round's slots 52.
#[derive(Clone, Copy, Debug, PartialEq, Eq)]
pub enum AnchoredCall {
    OnSlot(SlotCall),
    Take,
    Answer(Span),
    AnswerFailed(Span),
}

// What was prepared for an advance: skip, relevant addresses of 20 bytes each and writes of 84.
#[derive(Clone, Copy, Debug, PartialEq, Eq)]
pub struct Prepared {
    pub skip: u64,
    pub relevance: Span,
    pub writes: Span,
}

// A call, as the list says it. An open has its capacity alone, or depth and retention too. An advance has child and parent hash.
#[derive(Clone, Copy, Debug, PartialEq, Eq)]
pub enum ListedCall {
    OpenDefault(u64),
    OpenWith(u64, u64, Retention),
    Install(ReadAnchor),
    Advance(ReadAnchor, U256, Prepared),
    Anchored(ReadAnchor, AnchoredCall),
}

// What stands after the anchor of a call that names one.
#[derive(Clone, Copy, Debug, PartialEq, Eq)]
enum AnchoredCode {
    Look,
    Get,
    Put,
    Read,
    Take,
    Answer,
}

// What a call's code says that it is.
#[derive(Clone, Copy, Debug, PartialEq, Eq)]
enum Code {
    Open,
    Install,
    Advance,
    Anchored(AnchoredCode),
}

// The codes 1 to 9; any other is a fault.
impl TryFrom<u8> for Code {
    type Error = FaultKind;

    ghost try_from_gives = { CodeSays };

    #[tactic(auto, unfolding(call_list::specs::CallList::parse_call, call_list::specs::CallList::parse_of, call_list::specs::CallList::code_table))]
    fn try_from(byte: u8) -> Result<Code, FaultKind> {
        match byte {
            1 => Ok(Code::Open),
            2 => Ok(Code::Install),
            3 => Ok(Code::Advance),
            4 => Ok(Code::Anchored(AnchoredCode::Look)),
            5 => Ok(Code::Anchored(AnchoredCode::Get)),
            6 => Ok(Code::Anchored(AnchoredCode::Put)),
            7 => Ok(Code::Anchored(AnchoredCode::Read)),
            8 => Ok(Code::Anchored(AnchoredCode::Take)),
            9 => Ok(Code::Anchored(AnchoredCode::Answer)),
            _ => Err(FaultKind::Unknown),
        }
    }
}

// A retention: byte 0 unbounded, or 1 and the idle number.
fn read_retention(from: &mut Reader<'_>) -> Result<Retention, FaultKind>
    ensures { Reads as_is result parse_limit from.old from.new }
{
    if from.read_form()? {
        Ok(Retention::IdleBlocks(from.read_number()?))
    } else {
        Ok(Retention::Unbounded)
    }
}

// 1 open: capacity; byte 0, or 1, depth and retention.
fn read_open(from: &mut Reader<'_>) -> Result<ListedCall, FaultKind>
    ensures reading { Reads (call_of from.old.list.now) result parse_open from.old from.new }
    ensures spans { IfOk result (CallWithin from.old.list.now from.new.at) }
{
    let capacity = from.read_number()?;
    if !from.read_form()? {
        return Ok(ListedCall::OpenDefault(capacity));
    }
    let depth = from.read_number()?;
    let retention = read_retention(from)?;
    Ok(ListedCall::OpenWith(capacity, depth, retention))
}

// 2 install: an anchor.
fn read_install(from: &mut Reader<'_>) -> Result<ListedCall, FaultKind>
    ensures reading { Reads (call_of from.old.list.now) result parse_install from.old from.new }
    ensures spans { IfOk result (CallWithin from.old.list.now from.new.at) }
{
    Ok(ListedCall::Install(from.read_anchor()?))
}

// What was prepared for an advance, after its skip: count and addresses, count and writes.
fn read_prepared(from: &mut Reader<'_>, skip: u64) -> Result<Prepared, FaultKind>
    ensures reading { Reads (prepared_of from.old.list.now) result (parse_prepared skip) from.old from.new }
    ensures spans { IfOk result (PreparedWithin from.old.list.now) }
{
    let relevance = from.read_entries(20)?;
    let writes = from.read_entries(84)?;
    Ok(Prepared {
        skip,
        relevance,
        writes,
    })
}

// 3 advance: child, parent hash, skip, and the rest of what was prepared.
fn read_advance(from: &mut Reader<'_>) -> Result<ListedCall, FaultKind>
    ensures reading { Reads (call_of from.old.list.now) result parse_advance from.old from.new }
    ensures spans { IfOk result (CallWithin from.old.list.now from.new.at) }
{
    let child = from.read_anchor()?;
    let parent_hash = from.read_u256()?;
    let skip = from.read_number()?;
    let prepared = read_prepared(from, skip)?;
    Ok(ListedCall::Advance(child, parent_hash, prepared))
}

// 9 answer: byte 0 members or 1 failed.
fn read_answer(from: &mut Reader<'_>) -> Result<AnchoredCall, FaultKind>
    ensures reading { Reads (anchored_of from.old.list.now) result parse_answer from.old from.new }
    ensures spans { IfOk result (AnchoredWithin from.old.list.now from.new.at) }
{
    if from.read_form()? {
        Ok(AnchoredCall::AnswerFailed(from.read_entries(52)?))
    } else {
        Ok(AnchoredCall::Answer(from.read_members()?))
    }
}

// What stands after the anchor: a slot, of a put its value too; of a take nothing.
fn read_rest(from: &mut Reader<'_>, code: AnchoredCode) -> Result<AnchoredCall, FaultKind>
    ensures reading { Reads (anchored_of from.old.list.now) result (parse_rest code) from.old from.new }
    ensures spans { IfOk result (AnchoredWithin from.old.list.now from.new.at) }
{
    match code {
        AnchoredCode::Look => Ok(AnchoredCall::OnSlot(SlotCall::Look(from.read_slot()?))),
        AnchoredCode::Get => Ok(AnchoredCall::OnSlot(SlotCall::Get(from.read_slot()?))),
        AnchoredCode::Put => {
            let slot = from.read_slot()?;
            let value = from.read_u256()?;
            Ok(AnchoredCall::OnSlot(SlotCall::Put(slot, value)))
        }
        AnchoredCode::Read => Ok(AnchoredCall::OnSlot(SlotCall::Read(from.read_slot()?))),
        AnchoredCode::Take => Ok(AnchoredCall::Take),
        AnchoredCode::Answer => read_answer(from),
    }
}

// 4 to 9: an anchor first, then the rest of the call.
fn read_anchored(from: &mut Reader<'_>, code: AnchoredCode) -> Result<ListedCall, FaultKind>
    ensures reading { Reads (call_of from.old.list.now) result (parse_anchored (parse_rest code)) from.old from.new }
    ensures spans { IfOk result (CallWithin from.old.list.now from.new.at) }
{
    let anchor = from.read_anchor()?;
    let call = read_rest(from, code)?;
    Ok(ListedCall::Anchored(anchor, call))
}

// A call: its code, then its parts.
#[tactic(auto, unfolding(call_list::specs::CallList::parse_call))]
pub fn read_call(from: &mut Reader<'_>) -> Result<ListedCall, FaultKind>
    ensures reading { Reads (call_of from.old.list.now) result parse_call from.old from.new }
    ensures progress { IfOk result (λ _. from.old.at < from.new.at) }
    ensures spans { IfOk result (CallWithin from.old.list.now from.new.at) }
{
    let code = Code::try_from(from.peek()?)?;
    from.at += 1;
    match code {
        Code::Open => read_open(from),
        Code::Install => read_install(from),
        Code::Advance => read_advance(from),
        Code::Anchored(code) => read_anchored(from, code),
    }
}
