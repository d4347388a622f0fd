// The accounts of a block access list under a plan (`seed_from_accounts` of bal_prefetch.rs): their entries found, those within the caps put into the outputs.
#![tactic(auto)]

ghost use Rattle.std.specs.Prelude.{◌≡◌, true, false, List, ℕ, ◌*◌, ◌/◌, ◌<◌, length, drop};
ghost use Rattle.model.specs.Entries.{address_of};
ghost use Rattle.bal_plan.specs.Plan.{admits_from};
ghost use Rattle.bal_plan.specs.Lent.{lent_plan};
ghost use Rattle.bal_accounts.specs.Accounts.{read_account};
ghost use Rattle.bal_accounts.specs.Walking.{start, WalkFits};

use bal_entries::Spot;
use bal_plan::Plan;
use model::storage_memo::Address;

// What is lent for an account: its address and its numbers of slots and reads.
#[derive(Clone, Copy, Debug, PartialEq, Eq)]
pub struct LentAccount {
    pub address: Address,
    pub slots: usize,
    pub reads: usize,
}

// Where the walk over accounts stands: the next slot, change and read, and the entries found.
#[derive(Clone, Copy, Debug, PartialEq, Eq, Default)]
pub struct Walk {
    pub slot: usize,
    pub change: usize,
    pub read: usize,
    pub writes: usize,
    pub reads: usize,
    pub filtered: usize,
}

// The flat lists that a block access list is lent as: the accounts, 36 bytes each; the slots of all accounts, 40 each; the changes of all slots, 40 each; the reads of all accounts, 32 each.
#[derive(Clone, Copy)]
pub struct BalLists<'a> {
    pub accounts: &'a [u8],
    pub slots: &'a [u8],
    pub changes: &'a [u8],
    pub reads: &'a [u8],
    pub ghost fit: { WalkFits accounts.now slots.now changes.now reads.now 0 start },
}

// An account of the lists, the ith, and where the walk stands before it.
#[derive(Clone, Copy)]
struct AccountAt<'a> {
    lists: BalLists<'a>,
    i: usize,
    walk: Walk,
    ghost here: { i < length lists.accounts.now / 36 },
    ghost fits: { WalkFits lists.accounts.now lists.slots.now lists.changes.now lists.reads.now i walk },
}

impl<'a> AccountAt<'a> {
    ghost use Rattle.bal_accounts.specs.Lent.{RoomForWrites, RoomForReads, Walked};

    // What is lent for it.
    fn account(self) -> LentAccount
        ensures { result ≡ read_account (drop (self.entry.i * 36) self.entry.lists.accounts.now) }
    {
        let at = self.i * 36;
        LentAccount {
            address: entries::read_address(self.lists.accounts, at),
            slots: words::read_u64(self.lists.accounts, at + 20) as usize,
            reads: words::read_u64(self.lists.accounts, at + 28) as usize,
        }
    }

    // The walk after it where the plan admits it: its changed slots and its reads are found.
    fn admit(self, plan: Plan, writes_out: &mut [u8], reads_out: &mut [u8]) -> Walk
        requires admitted { admits_from (lent_plan plan).addresses (address_of (drop (self.i * 36) self.lists.accounts.now)) ≡ true }
        requires room { RoomForWrites self.lists writes_out.old × RoomForReads self.lists reads_out.old }
        ensures { Walked self.entry.lists plan.entry self.entry.i 1 self.entry.walk writes_out.old reads_out.old result writes_out.new reads_out.new }
    {
        let account = self.account();
        let w = self.walk;
        let from = Spot {
            slot: w.slot,
            change: w.change,
            found: w.writes,
        };
        let spot = bal_entries::seed_slots(
            account.address,
            self.lists.slots,
            self.lists.changes,
            account.slots,
            bal_plan::limit(plan.max_writes),
            from,
            writes_out,
        );
        bal_entries::seed_reads(
            account.address,
            self.lists.reads,
            w.read,
            account.reads,
            bal_plan::limit(plan.max_reads),
            w.reads,
            reads_out,
        );
        Walk {
            slot: spot.slot,
            change: spot.change,
            read: w.read + account.reads,
            writes: spot.found,
            reads: w.reads + account.reads,
            filtered: w.filtered,
        }
    }

    // The walk after it where the plan does not: its changed slots and its reads are filtered, and nothing is put.
    fn filter(self, writes_out: &mut [u8]) -> Walk
        requires { RoomForWrites self.lists writes_out.old }
        ensures { (plan : Plan) (ro : List ℕ) → admits_from (lent_plan plan).addresses (address_of (drop (self.entry.i * 36) self.entry.lists.accounts.now)) ≡ false → Walked self.entry.lists plan self.entry.i 1 self.entry.walk writes_out.old ro result writes_out.new ro }
    {
        let account = self.account();
        let w = self.walk;
        let from = Spot {
            slot: w.slot,
            change: w.change,
            found: 0,
        };
        let spot = bal_entries::seed_slots(
            account.address,
            self.lists.slots,
            self.lists.changes,
            account.slots,
            0,
            from,
            writes_out,
        );
        Walk {
            slot: spot.slot,
            change: spot.change,
            read: w.read + account.reads,
            writes: w.writes,
            reads: w.reads,
            filtered: w.filtered + spot.found + account.reads,
        }
    }

    // The walk after it under the plan.
    fn seed(self, plan: Plan, writes_out: &mut [u8], reads_out: &mut [u8]) -> Walk
        requires { RoomForWrites self.lists writes_out.old × RoomForReads self.lists reads_out.old }
        ensures { Walked self.entry.lists plan.entry self.entry.i 1 self.entry.walk writes_out.old reads_out.old result writes_out.new reads_out.new }
    {
        let address = entries::read_address(self.lists.accounts, self.i * 36);
        if plan.admits(address) {
            self.admit(plan, writes_out, reads_out)
        } else {
            self.filter(writes_out)
        }
    }
}

impl<'a> BalLists<'a> {
    ghost use Rattle.bal_accounts.specs.Lent.{RoomForWrites, RoomForReads, Walked};

    // What the accounts give under the plan: the entries found, those within the caps in the outputs.
    pub fn seed_from_accounts(self, plan: Plan, writes_out: &mut [u8], reads_out: &mut [u8]) -> Walk
        requires { RoomForWrites self writes_out.old × RoomForReads self reads_out.old }
        ensures { Walked self.entry plan.entry 0 (length self.entry.accounts.now / 36) start writes_out.old reads_out.old result writes_out.new reads_out.new }
    {
        let mut walk = Walk::default();
        for i in 0..self.accounts.len() / 36 {
            let account = AccountAt {
                lists: self,
                i,
                walk,
            };
            walk = account.seed(plan, writes_out, reads_out);
        }
        walk
    }
}
