#![tactic(auto)]

// Where everything in a store stands: the code's names for specs/Layout.antt, which says what each is. Names in _WIDTH, _TABLE and _INDEX count words, names in _SIZE and _OFFSET bytes.
pub const SLOT_WIDTH: usize = 7;

pub const RECORD_WIDTH: usize = 14;

pub const AWAITING_WIDTH: usize = 10;

pub const RECORD_SIZE: usize = 8 * RECORD_WIDTH;

pub const AWAITING_SIZE: usize = 8 * AWAITING_WIDTH;

pub const HEADER_WIDTH: usize = 24;

pub const ENDS_LIMIT: usize = 256;

pub const AWAITING_LIMIT: usize = 64;

pub const AWAITING_TABLE: usize = AWAITING_LIMIT * AWAITING_WIDTH;

pub const MAGIC: u64 = 0x706f78696c6d6502;

pub const CAPACITY_INDEX: usize = 1;

pub const MAX_DEPTH_INDEX: usize = 2;

pub const RETENTION_INDEX: usize = 3;

pub const IDLE_INDEX: usize = 4;

pub const INSTALLED_INDEX: usize = 5;

pub const NUMBER_INDEX: usize = 6;

pub const HASH_INDEX: usize = 7;

pub const DEPTH_INDEX: usize = 12;

pub const RECORDS_COUNT_INDEX: usize = 13;

pub const AWAITING_COUNT_INDEX: usize = 14;

pub const TOTALS_INDEX: usize = 15;

pub const ACCEPTED_INDEX: usize = TOTALS_INDEX;

pub const SERVED_INDEX: usize = TOTALS_INDEX + 1;

pub const WAITING_INDEX: usize = TOTALS_INDEX + 2;

pub const VALUED_INDEX: usize = TOTALS_INDEX + 3;

pub const REFUSED_INDEX: usize = TOTALS_INDEX + 4;

pub const ROUNDS_INDEX: usize = TOTALS_INDEX + 5;

pub const MEMBERS_INDEX: usize = TOTALS_INDEX + 6;

pub const ERRORS_INDEX: usize = TOTALS_INDEX + 7;

pub const COALESCED_INDEX: usize = TOTALS_INDEX + 8;

pub const ENDS_INDEX: usize = HEADER_WIDTH;

pub const AWAITING_INDEX: usize = ENDS_INDEX + ENDS_LIMIT;

pub const RECORDS_INDEX: usize = AWAITING_INDEX + AWAITING_TABLE;

pub const CAPACITY_OFFSET: usize = 8 * CAPACITY_INDEX;

pub const MAX_DEPTH_OFFSET: usize = 8 * MAX_DEPTH_INDEX;

pub const RETENTION_OFFSET: usize = 8 * RETENTION_INDEX;

pub const IDLE_OFFSET: usize = 8 * IDLE_INDEX;

pub const INSTALLED_OFFSET: usize = 8 * INSTALLED_INDEX;

pub const NUMBER_OFFSET: usize = 8 * NUMBER_INDEX;

pub const HASH_OFFSET: usize = 8 * HASH_INDEX;

pub const HASH_W0_OFFSET: usize = HASH_OFFSET + 8;

pub const HASH_W1_OFFSET: usize = HASH_OFFSET + 16;

pub const HASH_W2_OFFSET: usize = HASH_OFFSET + 24;

pub const HASH_W3_OFFSET: usize = HASH_OFFSET + 32;

pub const DEPTH_OFFSET: usize = 8 * DEPTH_INDEX;

pub const RECORDS_COUNT_OFFSET: usize = 8 * RECORDS_COUNT_INDEX;

pub const AWAITING_COUNT_OFFSET: usize = 8 * AWAITING_COUNT_INDEX;

pub const ACCEPTED_OFFSET: usize = 8 * ACCEPTED_INDEX;

pub const SERVED_OFFSET: usize = 8 * SERVED_INDEX;

pub const WAITING_OFFSET: usize = 8 * WAITING_INDEX;

pub const VALUED_OFFSET: usize = 8 * VALUED_INDEX;

pub const REFUSED_OFFSET: usize = 8 * REFUSED_INDEX;

pub const ROUNDS_OFFSET: usize = 8 * ROUNDS_INDEX;

pub const MEMBERS_OFFSET: usize = 8 * MEMBERS_INDEX;

pub const ERRORS_OFFSET: usize = 8 * ERRORS_INDEX;

pub const COALESCED_OFFSET: usize = 8 * COALESCED_INDEX;

pub const ENDS_OFFSET: usize = 8 * ENDS_INDEX;

pub const AWAITING_OFFSET: usize = 8 * AWAITING_INDEX;

pub const RECORDS_OFFSET: usize = 8 * RECORDS_INDEX;

pub const LAST_USE_INDEX: usize = 7;

pub const HAS_INDEX: usize = 8;

pub const VALUE_INDEX: usize = 9;

pub const SECOND_USE_INDEX: usize = 13;

pub const WAITERS_INDEX: usize = 7;

pub const TAKEN_INDEX: usize = 8;

pub const SECOND_WAITERS_INDEX: usize = 9;

pub const LAST_USE_OFFSET: usize = 8 * LAST_USE_INDEX;

pub const HAS_OFFSET: usize = 8 * HAS_INDEX;

pub const VALUE_OFFSET: usize = 8 * VALUE_INDEX;

pub const WAITERS_OFFSET: usize = 8 * WAITERS_INDEX;

pub const TAKEN_OFFSET: usize = 8 * TAKEN_INDEX;

pub const SECOND_WAITERS_OFFSET: usize = 8 * SECOND_WAITERS_INDEX;
