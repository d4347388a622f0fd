// The static library for C and Rust: every public call of the store on numbers and lent bytes. docs/REFERENCE.md describes each.
// A call gives 0, or its refusal's number; the words of an accepted call's reply stand in `reply`. Arguments that are too short are refused by 9, before every other refusal.
#![tactic(auto, using(image::proofs::Lent::decoded_some, header::proofs::Guards::past_guard))]

ghost use Rattle.std.specs.Prelude.{◌≡◌, true, ◌/◌, length, is_some};
ghost use Rattle.model.specs.Store as calls;
ghost use Rattle.image.specs.Image.{decode, totals_words};
ghost use Rattle.bal_plan.specs.Plan.{plan_of};
ghost use Rattle.final_writes.specs.Lent.{lent_lists, lent_final_writes};
ghost use Rattle.lent_calls.specs.Arguments.{reply_enough, lent_cap, lent_size};
ghost use Rattle.lent_calls.specs.ReplyWords.{Gives, reply_given, totals_given};
ghost use Rattle.lent_calls.specs.Exported.{lent_final, Keeps, Exported, ExportedOutput, ExportedRun, ExportedFinal};
ghost use Rattle.lent_calls.specs.Steps.{lent_open, lent_install, lent_slot, lent_put, lent_advance, lent_take, lent_answer, lent_failed, lent_totals};

mod store_calls;

use crate::store_calls::{Checked, StoreCalls, Unchecked};
use layers::{LentGeneration, LentStore};
use model::delta_snapshot::Retention;
use model::read_hub::ReadTotals;
use model::refusal::Refusal;
use model::storage_memo::U256;
use reader::Cursor;

// The bytes of a store of a capacity, and of an advance's work area; 0 for a capacity that an open refuses.
#[tactic(auto, unfolding(model::specs::Refusals::capacity_out_of_range))]
#[unsafe(no_mangle)]
pub extern "C" fn poxilme_store_size(capacity: u64) -> u64
    ensures { result ≡ lent_size capacity }
{
    if capacity == 0 || 4096 < capacity {
        return 0;
    }
    (layout::RECORDS_OFFSET + layout::RECORD_SIZE * (capacity as usize)) as u64
}

// Whether the bytes are a store.
#[unsafe(no_mangle)]
pub extern "C" fn poxilme_is_store(s: &[u8]) -> bool
    ensures { result ≡ is_some (decode s.now) }
{
    check_store::is_store(s)
}

// `store::open`; a form of retention (`bounded`) that is neither 0 nor 1 is refused by 3. The bytes are a store where it gives 0.
#[unsafe(no_mangle)]
pub extern "C" fn poxilme_open(
    s: &mut [u8],
    capacity: u64,
    max_depth: u64,
    bounded: u64,
    idle: u64,
    reply: &mut [u8],
) -> u64
    ensures { Exported result s.new reply.new (lent_open s.old capacity max_depth bounded idle reply.old) reply.old × (result ≡ 0 → is_some (decode s.new) ≡ true) × Keeps s.old s.new }
{
    if !lent_calls::reply_enough(reply) {
        return Refusal::LentTooShort.number();
    }
    if 1 < bounded {
        return Refusal::UnknownForm.number();
    }
    let retention = Retention::of_words(bounded, idle);
    lent_calls::write_reply(reply, store::open(s, capacity, max_depth, retention))
}

// An install, by the checked calls or by the unchecked ones; likewise the calls below.
fn install<C: StoreCalls>(s: &mut [u8], number: u64, hash: &[u8], reply: &mut [u8]) -> u64
    requires { C.Lent s.old }
    ensures { Exported result s.new reply.new (lent_install s.old number hash.now reply.old) reply.old × Keeps s.old s.new }
{
    if !lent_calls::anchored_enough(hash, reply) {
        return Refusal::LentTooShort.number();
    }
    let anchor = lent_calls::anchor(number, hash);
    let r = C::install(s, anchor);
    lent_calls::write_reply(reply, r)
}

// A put.
fn put<C: StoreCalls>(
    s: &mut [u8],
    number: u64,
    hash: &[u8],
    slot: &[u8],
    value: &[u8],
    reply: &mut [u8],
) -> u64
    requires { C.Lent s.old }
    ensures { Exported result s.new reply.new (lent_put s.old number hash.now slot.now value.now reply.old) reply.old × Keeps s.old s.new }
{
    if !lent_calls::put_enough(hash, slot, value, reply) {
        return Refusal::LentTooShort.number();
    }
    let anchor = lent_calls::anchor(number, hash);
    let r = C::put(s, anchor, lent_calls::slot(slot), lent_calls::value(value));
    lent_calls::write_reply(reply, r)
}

// An advance; number and hash are the child's.
fn advance<C: StoreCalls>(
    s: &mut [u8],
    number: u64,
    hash: &[u8],
    parent_hash: &[u8],
    skip: u64,
    addresses: &[u8],
    writes: &[u8],
    work: &mut [u8],
    out: &mut [u8],
    reply: &mut [u8],
) -> u64
    requires { C.Lent s.old }
    ensures { ExportedOutput result s.new reply.new out.new (lent_advance s.old number hash.now parent_hash.now skip addresses.now writes.now work.old out.old reply.old) reply.old out.old × Keeps s.old s.new }
{
    if !lent_calls::advance_enough(hash, parent_hash, reply) {
        return Refusal::LentTooShort.number();
    }
    let anchor = lent_calls::anchor(number, hash);
    let parent = lent_calls::value(parent_hash);
    let r = C::advance(s, anchor, parent, skip, addresses, writes, work, out);
    lent_calls::write_reply(reply, r)
}

// A read.
fn read<C: StoreCalls>(s: &mut [u8], number: u64, hash: &[u8], slot: &[u8], reply: &mut [u8]) -> u64
    requires { C.Lent s.old }
    ensures { Exported result s.new reply.new (lent_slot calls.read s.old number hash.now slot.now reply.old) reply.old × Keeps s.old s.new }
{
    if !lent_calls::slot_enough(hash, slot, reply) {
        return Refusal::LentTooShort.number();
    }
    let anchor = lent_calls::anchor(number, hash);
    let r = C::read(s, anchor, lent_calls::slot(slot));
    lent_calls::write_reply(reply, r)
}

// A take.
fn take<C: StoreCalls>(
    s: &mut [u8],
    number: u64,
    hash: &[u8],
    out: &mut [u8],
    reply: &mut [u8],
) -> u64
    requires { C.Lent s.old }
    ensures { ExportedOutput result s.new reply.new out.new (lent_take s.old number hash.now out.old reply.old) reply.old out.old × Keeps s.old s.new }
{
    if !lent_calls::anchored_enough(hash, reply) {
        return Refusal::LentTooShort.number();
    }
    let anchor = lent_calls::anchor(number, hash);
    let r = C::take(s, anchor, out);
    lent_calls::write_reply(reply, r)
}

// An answer.
fn answer<C: StoreCalls>(
    s: &mut [u8],
    number: u64,
    hash: &[u8],
    members: &[u8],
    reply: &mut [u8],
) -> u64
    requires { C.Lent s.old }
    ensures { Exported result s.new reply.new (lent_answer s.old number hash.now members.now reply.old) reply.old × Keeps s.old s.new }
{
    if !lent_calls::anchored_enough(hash, reply) {
        return Refusal::LentTooShort.number();
    }
    let anchor = lent_calls::anchor(number, hash);
    let r = C::answer(s, anchor, members);
    lent_calls::write_reply(reply, r)
}

// An answer of a round that failed as a whole.
fn answer_failed<C: StoreCalls>(
    s: &mut [u8],
    number: u64,
    hash: &[u8],
    slots: &[u8],
    reply: &mut [u8],
) -> u64
    requires { C.Lent s.old }
    ensures { Exported result s.new reply.new (lent_failed s.old number hash.now slots.now reply.old) reply.old × Keeps s.old s.new }
{
    if !lent_calls::anchored_enough(hash, reply) {
        return Refusal::LentTooShort.number();
    }
    let anchor = lent_calls::anchor(number, hash);
    let r = C::answer_failed(s, anchor, slots);
    lent_calls::write_reply(reply, r)
}

// `store::install`.
#[unsafe(no_mangle)]
pub extern "C" fn poxilme_install(s: &mut [u8], number: u64, hash: &[u8], reply: &mut [u8]) -> u64
    ensures { Exported result s.new reply.new (lent_install s.old number hash.now reply.old) reply.old × Keeps s.old s.new }
{
    install::<Checked>(s, number, hash, reply)
}

// `store::look`.
#[unsafe(no_mangle)]
pub extern "C" fn poxilme_look(
    s: &[u8],
    number: u64,
    hash: &[u8],
    slot: &[u8],
    reply: &mut [u8],
) -> u64
    ensures { Exported result s.now reply.new (lent_slot calls.look s.now number hash.now slot.now reply.old) reply.old }
{
    if !lent_calls::slot_enough(hash, slot, reply) {
        return Refusal::LentTooShort.number();
    }
    let anchor = lent_calls::anchor(number, hash);
    let r = store::look(s, anchor, lent_calls::slot(slot));
    lent_calls::write_reply(reply, r)
}

// `store::get`.
#[unsafe(no_mangle)]
pub extern "C" fn poxilme_get(
    s: &mut [u8],
    number: u64,
    hash: &[u8],
    slot: &[u8],
    reply: &mut [u8],
) -> u64
    ensures { Exported result s.new reply.new (lent_slot calls.get s.old number hash.now slot.now reply.old) reply.old × Keeps s.old s.new }
{
    if !lent_calls::slot_enough(hash, slot, reply) {
        return Refusal::LentTooShort.number();
    }
    let anchor = lent_calls::anchor(number, hash);
    let r = store::get(s, anchor, lent_calls::slot(slot));
    lent_calls::write_reply(reply, r)
}

// `store::put`.
#[unsafe(no_mangle)]
pub extern "C" fn poxilme_put(
    s: &mut [u8],
    number: u64,
    hash: &[u8],
    slot: &[u8],
    value: &[u8],
    reply: &mut [u8],
) -> u64
    ensures { Exported result s.new reply.new (lent_put s.old number hash.now slot.now value.now reply.old) reply.old × Keeps s.old s.new }
{
    put::<Checked>(s, number, hash, slot, value, reply)
}

// `store::advance`; number and hash are the child's.
#[unsafe(no_mangle)]
pub extern "C" fn poxilme_advance(
    s: &mut [u8],
    number: u64,
    hash: &[u8],
    parent_hash: &[u8],
    skip: u64,
    addresses: &[u8],
    writes: &[u8],
    work: &mut [u8],
    out: &mut [u8],
    reply: &mut [u8],
) -> u64
    ensures { ExportedOutput result s.new reply.new out.new (lent_advance s.old number hash.now parent_hash.now skip addresses.now writes.now work.old out.old reply.old) reply.old out.old × Keeps s.old s.new }
{
    advance::<Checked>(
        s,
        number,
        hash,
        parent_hash,
        skip,
        addresses,
        writes,
        work,
        out,
        reply,
    )
}

// `store::read`.
#[unsafe(no_mangle)]
pub extern "C" fn poxilme_read(
    s: &mut [u8],
    number: u64,
    hash: &[u8],
    slot: &[u8],
    reply: &mut [u8],
) -> u64
    ensures { Exported result s.new reply.new (lent_slot calls.read s.old number hash.now slot.now reply.old) reply.old × Keeps s.old s.new }
{
    read::<Checked>(s, number, hash, slot, reply)
}

// `store::take`.
#[unsafe(no_mangle)]
pub extern "C" fn poxilme_take(
    s: &mut [u8],
    number: u64,
    hash: &[u8],
    out: &mut [u8],
    reply: &mut [u8],
) -> u64
    ensures { ExportedOutput result s.new reply.new out.new (lent_take s.old number hash.now out.old reply.old) reply.old out.old × Keeps s.old s.new }
{
    take::<Checked>(s, number, hash, out, reply)
}

// `store::answer`.
#[unsafe(no_mangle)]
pub extern "C" fn poxilme_answer(
    s: &mut [u8],
    number: u64,
    hash: &[u8],
    members: &[u8],
    reply: &mut [u8],
) -> u64
    ensures { Exported result s.new reply.new (lent_answer s.old number hash.now members.now reply.old) reply.old × Keeps s.old s.new }
{
    answer::<Checked>(s, number, hash, members, reply)
}

// `store::answer_failed`.
#[unsafe(no_mangle)]
pub extern "C" fn poxilme_answer_failed(
    s: &mut [u8],
    number: u64,
    hash: &[u8],
    slots: &[u8],
    reply: &mut [u8],
) -> u64
    ensures { Exported result s.new reply.new (lent_failed s.old number hash.now slots.now reply.old) reply.old × Keeps s.old s.new }
{
    answer_failed::<Checked>(s, number, hash, slots, reply)
}

// The read totals of a store's installed generation, or 21.
fn known_totals(store: LentStore) -> Result<ReadTotals, Refusal>
    ensures { reply_given totals_words result ≡ totals_given (decode store.entry.bytes.now) }
{
    if !store.is_installed() {
        return Err(Refusal::NothingInstalled);
    }
    Ok(totals::read_totals(store.bytes))
}

// The read totals of the installed generation. Refused by 20 and 21.
#[unsafe(no_mangle)]
pub extern "C" fn poxilme_read_totals(s: &[u8], reply: &mut [u8]) -> u64
    ensures { Gives result reply.new (lent_totals s.now reply.old) reply.old }
{
    if !lent_calls::reply_enough(reply) {
        return Refusal::LentTooShort.number();
    }
    if !check_store::is_store(s) {
        return Refusal::NotAStore.number();
    }
    lent_calls::write_reply(reply, known_totals(LentStore { bytes: s }))
}

// `poxilme_install` on bytes that are known to be a store: what `poxilme_open` and these functions leave.
#[unsafe(no_mangle)]
pub extern "C" fn poxilme_install_unchecked(
    s: &mut [u8],
    number: u64,
    hash: &[u8],
    reply: &mut [u8],
) -> u64
    requires { is_some (decode s.old) ≡ true }
    ensures { Exported result s.new reply.new (lent_install s.old number hash.now reply.old) reply.old × (is_some (decode s.new) ≡ true) }
{
    install::<Unchecked>(s, number, hash, reply)
}

// `poxilme_look`, likewise. The value is copied from its record.
#[unsafe(no_mangle)]
pub extern "C" fn poxilme_look_unchecked(
    s: &[u8],
    number: u64,
    hash: &[u8],
    slot: &[u8],
    reply: &mut [u8],
) -> u64
    requires { is_some (decode s.now) ≡ true }
    ensures { Exported result s.now reply.new (lent_slot calls.look s.now number hash.now slot.now reply.old) reply.old }
{
    if !lent_calls::slot_enough(hash, slot, reply) {
        return Refusal::LentTooShort.number();
    }
    let t = lent_calls::slot(slot);
    let anchor = lent_calls::anchor(number, hash);
    if let Err(refusal) = header::guard(LentStore { bytes: s }, anchor) {
        return refusal.number();
    }
    let generation = LentGeneration { bytes: s };
    let place = generation.top_place(t);
    let Some(row) = generation.served_row(place, t) else {
        return lent_calls::write_reply::<Option<U256>>(reply, Ok(None));
    };
    lent_calls::write_row(reply, s, row);
    0
}

// `poxilme_get`, likewise. The value is copied from its record before the use is set.
#[unsafe(no_mangle)]
pub extern "C" fn poxilme_get_unchecked(
    s: &mut [u8],
    number: u64,
    hash: &[u8],
    slot: &[u8],
    reply: &mut [u8],
) -> u64
    requires { is_some (decode s.old) ≡ true }
    ensures { Exported result s.new reply.new (lent_slot calls.get s.old number hash.now slot.now reply.old) reply.old × (is_some (decode s.new) ≡ true) }
{
    if !lent_calls::slot_enough(hash, slot, reply) {
        return Refusal::LentTooShort.number();
    }
    let t = lent_calls::slot(slot);
    let anchor = lent_calls::anchor(number, hash);
    if let Err(refusal) = header::guard(LentStore { bytes: s }, anchor) {
        return refusal.number();
    }
    let generation = LentGeneration { bytes: s };
    let place = generation.top_place(t);
    let Some(row) = generation.served_row(place, t) else {
        return lent_calls::write_reply::<Option<U256>>(reply, Ok(None));
    };
    if !top::has_room(generation, place) {
        return Refusal::OverCapacity.number();
    }
    lent_calls::write_row(reply, s, row);
    top::touch_top(s, place, t);
    0
}

// `poxilme_put`, likewise.
#[unsafe(no_mangle)]
pub extern "C" fn poxilme_put_unchecked(
    s: &mut [u8],
    number: u64,
    hash: &[u8],
    slot: &[u8],
    value: &[u8],
    reply: &mut [u8],
) -> u64
    requires { is_some (decode s.old) ≡ true }
    ensures { Exported result s.new reply.new (lent_put s.old number hash.now slot.now value.now reply.old) reply.old × (is_some (decode s.new) ≡ true) }
{
    put::<Unchecked>(s, number, hash, slot, value, reply)
}

// `poxilme_advance`, likewise.
#[unsafe(no_mangle)]
pub extern "C" fn poxilme_advance_unchecked(
    s: &mut [u8],
    number: u64,
    hash: &[u8],
    parent_hash: &[u8],
    skip: u64,
    addresses: &[u8],
    writes: &[u8],
    work: &mut [u8],
    out: &mut [u8],
    reply: &mut [u8],
) -> u64
    requires { is_some (decode s.old) ≡ true }
    ensures { ExportedOutput result s.new reply.new out.new (lent_advance s.old number hash.now parent_hash.now skip addresses.now writes.now work.old out.old reply.old) reply.old out.old × (is_some (decode s.new) ≡ true) }
{
    advance::<Unchecked>(
        s,
        number,
        hash,
        parent_hash,
        skip,
        addresses,
        writes,
        work,
        out,
        reply,
    )
}

// `poxilme_read`, likewise.
#[unsafe(no_mangle)]
pub extern "C" fn poxilme_read_unchecked(
    s: &mut [u8],
    number: u64,
    hash: &[u8],
    slot: &[u8],
    reply: &mut [u8],
) -> u64
    requires { is_some (decode s.old) ≡ true }
    ensures { Exported result s.new reply.new (lent_slot calls.read s.old number hash.now slot.now reply.old) reply.old × (is_some (decode s.new) ≡ true) }
{
    read::<Unchecked>(s, number, hash, slot, reply)
}

// `poxilme_take`, likewise.
#[unsafe(no_mangle)]
pub extern "C" fn poxilme_take_unchecked(
    s: &mut [u8],
    number: u64,
    hash: &[u8],
    out: &mut [u8],
    reply: &mut [u8],
) -> u64
    requires { is_some (decode s.old) ≡ true }
    ensures { ExportedOutput result s.new reply.new out.new (lent_take s.old number hash.now out.old reply.old) reply.old out.old × (is_some (decode s.new) ≡ true) }
{
    take::<Unchecked>(s, number, hash, out, reply)
}

// `poxilme_answer`, likewise.
#[unsafe(no_mangle)]
pub extern "C" fn poxilme_answer_unchecked(
    s: &mut [u8],
    number: u64,
    hash: &[u8],
    members: &[u8],
    reply: &mut [u8],
) -> u64
    requires { is_some (decode s.old) ≡ true }
    ensures { Exported result s.new reply.new (lent_answer s.old number hash.now members.now reply.old) reply.old × (is_some (decode s.new) ≡ true) }
{
    answer::<Unchecked>(s, number, hash, members, reply)
}

// `poxilme_answer_failed`, likewise.
#[unsafe(no_mangle)]
pub extern "C" fn poxilme_answer_failed_unchecked(
    s: &mut [u8],
    number: u64,
    hash: &[u8],
    slots: &[u8],
    reply: &mut [u8],
) -> u64
    requires { is_some (decode s.old) ≡ true }
    ensures { Exported result s.new reply.new (lent_failed s.old number hash.now slots.now reply.old) reply.old × (is_some (decode s.new) ≡ true) }
{
    answer_failed::<Unchecked>(s, number, hash, slots, reply)
}

// `poxilme_read_totals`, likewise.
#[unsafe(no_mangle)]
pub extern "C" fn poxilme_read_totals_unchecked(s: &[u8], reply: &mut [u8]) -> u64
    requires { is_some (decode s.now) ≡ true }
    ensures { Gives result reply.new (lent_totals s.now reply.old) reply.old }
{
    if !lent_calls::reply_enough(reply) {
        return Refusal::LentTooShort.number();
    }
    lent_calls::write_reply(reply, known_totals(LentStore { bytes: s }))
}

// `call_run::run`, from the place `from` on.
#[unsafe(no_mangle)]
pub extern "C" fn poxilme_run(
    list: &[u8],
    from: usize,
    s: &mut [u8],
    work: &mut [u8],
    entries: &mut [u8],
    members: &mut [u8],
    out: &mut [u8],
    reply: &mut [u8],
) -> u64
    ensures { ExportedRun (reply_enough reply.old) result (length work.old) (length entries.old / 52) list.now from members.old s.old out.old reply.old s.new out.new reply.new × Keeps s.old s.new }
{
    if !lent_calls::reply_enough(reply) {
        return Refusal::LentTooShort.number();
    }
    let r = call_run::run(list, Cursor { at: from }, s, work, entries, members, out);
    lent_calls::write_reply(reply, r)
}

// `final_writes::final_writes`; a cap of 2^64 − 1 is none.
#[unsafe(no_mangle)]
pub extern "C" fn poxilme_final_writes(
    accounts: &[u8],
    slots: &[u8],
    changes: &[u8],
    reads: &[u8],
    plan_addresses: &[u8],
    max_writes: u64,
    max_reads: u64,
    writes_out: &mut [u8],
    reads_out: &mut [u8],
    reply: &mut [u8],
) -> u64
    ensures { ExportedFinal result reply.new writes_out.new reads_out.new (lent_final (reply_enough reply.old) (lent_final_writes (plan_of plan_addresses.now (lent_cap max_writes) (lent_cap max_reads)) (lent_lists accounts.now slots.now changes.now reads.now) writes_out.old reads_out.old)) reply.old writes_out.old reads_out.old }
{
    if !lent_calls::reply_enough(reply) {
        return Refusal::LentTooShort.number();
    }
    let most_writes = lent_calls::cap(max_writes);
    let most_reads = lent_calls::cap(max_reads);
    let r = final_writes::final_writes(
        accounts,
        slots,
        changes,
        reads,
        plan_addresses,
        most_writes,
        most_reads,
        writes_out,
        reads_out,
    );
    lent_calls::write_reply(reply, r)
}
