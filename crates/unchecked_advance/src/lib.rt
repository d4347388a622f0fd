// An advance of a store known to be right.
#![tactic(auto, using(layers::proofs::Header::header_room))]

ghost use Rattle.std.specs.Prelude.{◌≡◌, List, ℕ, suc, ◌+◌, ◌*◌, ◌/◌, ◌≤◌, length, take, true, is_some};
ghost use Rattle.model.specs.Layers.{find};
ghost use Rattle.model.specs.Entries.{writes_of, with_slots};
ghost use Rattle.model.specs.Advance.{skip_of};
ghost use Rattle.model.specs.Store as calls;
ghost use Rattle.model.specs.Store.{cold_advance, carry, already_current, perform};
ghost use Rattle.model.specs.Refusals.{store_size, ok};
ghost use Rattle.words.specs.Parts.{placed};
ghost use Rattle.image.specs.Image.{bytes_step};
ghost use Rattle.image.specs.Lent.{store_of, generation_of, IsStore, Installed};
ghost use Rattle.unchecked_advance.specs.Outputs.{applied_in};
ghost use Rattle.replies.specs.Replies.{advance_reply, advance_call, AdvancedAs};
ghost use Rattle.replies.specs.Replies.{lent_prepared};
ghost use Rattle.unchecked_advance.specs.Inner.{CountedAs, CountsBefore, Ready, ended, writing};

use counts::Counts;
use layers::{LentGeneration, LentStore};
use model::bal_prefetch::BalSkip;
use model::delta_snapshot::{CompactionReport, Slot};
use model::read_hub::{CarryOutcome, Lineage};
use model::refusal::Refusal;
use model::storage_memo::{B256, ReadAnchor};
use order::Records;
use replies::{AdvanceReply, DeltaReport, WriteCounts};

// Copies the first n bytes of the work area to the store.
fn copy_back(s: &mut [u8], work: &[u8], n: usize)
    requires { (n ≤ length work.now) × (n ≤ length s.old) }
    ensures { s.new ≡ placed 0 (take n work.now) s.old }
{
    words::place(s, 0, &work[0..n]);
}

// Held and live of the installed generation.
pub fn counts_of(s: &[u8]) -> Counts
    requires { Installed s.now }
    ensures { CountedAs result (store_of s.now).config.retention (generation_of s.now) }
{
    let generation = LentGeneration { bytes: s };
    let base = generation.top_start();
    let top = generation.top_count();
    let retention = generation.retention();
    let number = generation.installed_number();
    let records = Records {
        bytes: &s[layout::RECORDS_OFFSET..],
        count: base + top,
    };
    counts::held_and_live(records, retention, number)
}

// Whether a slot has a record in the top.
fn in_top(generation: LentGeneration, slot: Slot) -> bool
    ensures { result ≡ is_some (find slot (generation_of generation.entry.bytes.now).top) }
{
    generation.top_place(slot).is_ok()
}

// Puts the slots of the applied writes to the output: those that the new top has a record of. How many they are.
pub fn write_outputs(generation: LentGeneration, writes: &[u8], out: &mut [u8]) -> usize
    requires { length writes.now / 84 * 52 ≤ length out.old }
    ensures { (out.new ≡ with_slots (applied_in (generation_of generation.entry.bytes.now).top (writes_of writes.now)) out.old) × (result ≡ length (applied_in (generation_of generation.entry.bytes.now).top (writes_of writes.now))) }
{
    let mut k = 0;
    for i in 0..writes.len() / 84 {
        if in_top(generation, seed::write_slot_of(writes, i)) {
            let at = i * 84;
            words::place(out, k * 52, &writes[at..at + 52]);
            k += 1;
        }
    }
    k
}

// Puts the slots of the applied writes to the output, and counts; `before` are the counts without a write.
fn count_after(work: &[u8], writes: &[u8], out: &mut [u8], applied: u64, before: Counts) -> Counts
    requires installed { Installed work.now × (length writes.now / 84 * 52 ≤ length out.old) }
    requires counts_before { CountsBefore applied before work.now writes.now }
    ensures { (out.new ≡ with_slots (applied_in (generation_of work.now).top (writes_of writes.now)) out.old) × CountedAs result (store_of work.now).config.retention (generation_of work.now) }
{
    if applied == 0 {
        return before;
    }
    write_outputs(LentGeneration { bytes: work }, writes, out);
    counts_of(work)
}

// The writes of an advance over the store begun in the work area, which then becomes the store; `before` are its counts.
fn finish(
    s: &mut [u8],
    addresses: &[u8],
    writes: &[u8],
    work: &mut [u8],
    out: &mut [u8],
    before: Counts,
    outcome: CarryOutcome,
    compaction: CompactionReport,
) -> AdvanceReply
    requires { Ready work.old s.old × (length writes.now / 84 * 52 ≤ length out.old) × CountedAs before (store_of work.old).config.retention (generation_of work.old) }
    ensures { AdvancedAs result s.new out.new (ended (store_of s.old).config (writing work.old addresses.now writes.now outcome compaction) s.old) out.old }
{
    let seeded = seed::seed_final_writes(work, addresses, writes);
    let Some(applied) = seeded else {
        return Err(Refusal::OverCapacity);
    };
    let counted = count_after(work, writes, out, applied.applied, before);
    let n = layout::RECORDS_OFFSET
        + layout::RECORD_SIZE * (words::read_u64(s, layout::CAPACITY_OFFSET) as usize);
    copy_back(s, work, n);
    Ok(DeltaReport {
        outcome,
        writes: applied,
        held: counted.held,
        live: counted.live,
        compaction,
    })
}

// A cold advance: the base is empty before the writes.
fn cold(
    s: &mut [u8],
    child: ReadAnchor,
    lineage: Lineage,
    skip: BalSkip,
    addresses: &[u8],
    writes: &[u8],
    work: &mut [u8],
    out: &mut [u8],
) -> AdvanceReply
    requires { IsStore s.old × (store_size (store_of s.old).config.capacity ≤ length work.old) × (length writes.now / 84 * 52 ≤ length out.old) }
    ensures { (k : ℕ) → skip ≡ skip_of k → AdvancedAs result s.new out.new (ended (store_of s.old).config (cold_advance (store_of s.old).config child lineage (lent_prepared k addresses.now writes.now)) s.old) out.old }
{
    seal::begin_cold(LentStore { bytes: s }, work, child);
    let counted = counts_of(work);
    let none = CompactionReport {
        merged: 0,
        left: 0,
        dropped: 0,
    };
    finish(
        s,
        addresses,
        writes,
        work,
        out,
        counted,
        CarryOutcome::Cold { lineage, bal: skip },
        none,
    )
}

// A carry: the parent's base folded if that is due, its top sealed, then the writes.
fn carried(
    s: &mut [u8],
    child: ReadAnchor,
    addresses: &[u8],
    writes: &[u8],
    work: &mut [u8],
    out: &mut [u8],
) -> AdvanceReply
    requires { Installed s.old × (child.number ≡ suc (generation_of s.old).anchor.number) × (store_size (store_of s.old).config.capacity ≤ length work.old) × (length writes.now / 84 * 52 ≤ length out.old) }
    ensures { (k : ℕ) → AdvancedAs result s.new out.new (ended (store_of s.old).config (carry (store_of s.old).config (generation_of s.old) child (lent_prepared k addresses.now writes.now)) s.old) out.old }
{
    let compaction = seal::begin_carried(LentGeneration { bytes: s }, work, child);
    let counted = counts_of(work);
    let held = counted.held as u64;
    finish(
        s,
        addresses,
        writes,
        work,
        out,
        counted,
        CarryOutcome::Carried(held),
        compaction,
    )
}

// The answer of an advance to the installed anchor.
fn current(generation: LentGeneration) -> AdvanceReply
    ensures { (out : List ℕ) → advance_reply result out ≡ ok (already_current (store_of generation.entry.bytes.now).config (generation_of generation.entry.bytes.now)) }
{
    let counted = counts_of(generation.bytes);
    Ok(DeltaReport {
        outcome: CarryOutcome::AlreadyCurrent,
        writes: WriteCounts {
            applied: 0,
            overwritten: 0,
            skipped: 0,
        },
        held: counted.held,
        live: counted.live,
        compaction: CompactionReport {
            merged: 0,
            left: 0,
            dropped: 0,
        },
    })
}

// An advance that no refusal but 23 stops: to the installed anchor, by a carry, or cold.
fn proceed(
    s: &mut [u8],
    child: ReadAnchor,
    parent_hash: B256,
    skip: BalSkip,
    addresses: &[u8],
    writes: &[u8],
    work: &mut [u8],
    out: &mut [u8],
) -> AdvanceReply
    requires { IsStore s.old × (store_size (store_of s.old).config.capacity ≤ length work.old) × (length writes.now / 84 * 52 ≤ length out.old) }
    ensures { (k : ℕ) → skip ≡ skip_of k → AdvancedAs result s.new out.new (ended (store_of s.old).config (perform (store_of s.old).config (store_of s.old).installed (calls.advance child parent_hash (lent_prepared k addresses.now writes.now))) s.old) out.old }
{
    let store = LentStore { bytes: s };
    if header::guard(store, child) == Ok(()) {
        let generation = LentGeneration { bytes: s };
        return current(generation);
    }
    let lineage = seal::classify_link(store, child, parent_hash);
    if seal::carries(lineage, skip) {
        return carried(s, child, addresses, writes, work, out);
    }
    cold(s, child, lineage, skip, addresses, writes, work, out)
}

// An advance of a store known to be right (`apply_prepared`). Refused by 6, 7, 9 and 23.
pub fn advance(
    s: &mut [u8],
    child: ReadAnchor,
    parent_hash: B256,
    skip: u64,
    addresses: &[u8],
    writes: &[u8],
    work: &mut [u8],
    out: &mut [u8],
) -> AdvanceReply
    requires { IsStore s.old }
    ensures { AdvancedAs result s.new out.new (bytes_step s.old (advance_call child parent_hash skip addresses.now writes.now work.old out.old)) out.old }
{
    let n = writes.len() / 84;
    if skip != 0 && n != 0 {
        return Err(Refusal::SkipWithWrites);
    }
    let bal = BalSkip::try_from(skip)?;
    if work.len()
        < layout::RECORDS_OFFSET
            + layout::RECORD_SIZE * (words::read_u64(s, layout::CAPACITY_OFFSET) as usize)
    {
        return Err(Refusal::LentTooShort);
    }
    if out.len() / 52 < n {
        return Err(Refusal::LentTooShort);
    }
    proceed(s, child, parent_hash, bal, addresses, writes, work, out)
}
