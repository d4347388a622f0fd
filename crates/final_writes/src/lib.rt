// Final writes (bal_prefetch.rs): what a block access list, lent as flat lists, gives under a plan. docs/REFERENCE.md describes it.
#![tactic(auto)]

ghost use Rattle.std.specs.Prelude.{◌≡◌, not, ◌+◌, ◌^◌, ◌<◌, ◌≤◌, eqb};
ghost use Rattle.model.specs.Entries.{number_at};
ghost use Rattle.entries.specs.Lists.{all_entries};
ghost use Rattle.bal_plan.specs.Plan.{plan_of};
ghost use Rattle.bal_entries.specs.Listed.{sum};
ghost use Rattle.final_writes.specs.FinalWrites.{counts_differ};
ghost use Rattle.final_writes.specs.Lent.{lent_lists, lent_final_writes, Answers};
ghost use Rattle.final_writes.specs.Counts.{counts_of};

use bal_accounts::{BalLists, Walk};
use bal_plan::Plan;
use model::refusal::Refusal;

// The counts of a seed (`BalSeed`): its writes and reads, and the entries that the plan left out.
#[derive(Clone, Copy, Debug, PartialEq, Eq)]
pub struct SeedCounts {
    pub writes: u64,
    pub reads: u64,
    pub filtered: u64,
    pub capped: u64,
}

// The reply of final writes.
pub type FinalWritesReply = Result<SeedCounts, Refusal>;

// Whether the counts at place `at` of the entries of `width` bytes sum to `total`.
fn counts_sum(list: &[u8], width: usize, at: usize, total: usize) -> bool
    requires { at + 8 ≤ width }
    ensures { result ≡ eqb (sum (all_entries (number_at at 8) width list.now)) total }
{
    let mut left = total;
    for i in 0..list.len() / width {
        let count = words::read_u64(list, i * width + at) as usize;
        if left < count {
            return false;
        }
        left -= count;
    }
    left == 0
}

// Whether the counts of slots, changes and reads sum to the lengths lent.
fn counts_agree(accounts: &[u8], slots: &[u8], changes: &[u8], reads: &[u8]) -> bool
    ensures { result ≡ not (counts_differ (lent_lists accounts.now slots.now changes.now reads.now)) }
{
    counts_sum(accounts, 36, 20, slots.len() / 40)
        && counts_sum(slots, 40, 32, changes.len() / 40)
        && counts_sum(accounts, 36, 28, reads.len() / 32)
}

// The counts of the seed, of the entries found: those over a cap are capped.
fn counts_of(w: Walk, max_writes: usize, max_reads: usize) -> SeedCounts
    requires { w.writes + w.reads < 2 ^ 64 }
    ensures { result ≡ counts_of w max_writes max_reads }
{
    let writes = w.writes.min(max_writes);
    let reads = w.reads.min(max_reads);
    SeedCounts {
        writes: writes as u64,
        reads: reads as u64,
        filtered: w.filtered as u64,
        capped: (w.writes - writes + (w.reads - reads)) as u64,
    }
}

// The final writes of the accounts lent, under the plan. `lent_lists` (specs/Lent.antt) names the form of each list, `Answers` that of the outputs.
pub fn final_writes(
    accounts: &[u8],
    slots: &[u8],
    changes: &[u8],
    reads: &[u8],
    plan_addresses: &[u8],
    max_writes: Option<u64>,
    max_reads: Option<u64>,
    writes_out: &mut [u8],
    reads_out: &mut [u8],
) -> FinalWritesReply
    ensures { Answers result writes_out.new reads_out.new (lent_final_writes (plan_of plan_addresses.now max_writes max_reads) (lent_lists accounts.now slots.now changes.now reads.now) writes_out.old reads_out.old) writes_out.old reads_out.old }
{
    if !counts_agree(accounts, slots, changes, reads) {
        return Err(Refusal::CountsDiffer);
    }
    if writes_out.len() / 84 < slots.len() / 40 || reads_out.len() / 52 < reads.len() / 32 {
        return Err(Refusal::LentTooShort);
    }
    let lists = BalLists {
        accounts,
        slots,
        changes,
        reads,
    };
    let plan = Plan {
        addresses: plan_addresses,
        max_writes,
        max_reads,
    };
    let w = lists.seed_from_accounts(plan, writes_out, reads_out);
    Ok(counts_of(w, bal_plan::limit(max_writes), bal_plan::limit(max_reads)))
}
