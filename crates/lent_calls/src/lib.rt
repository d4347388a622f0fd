// A call's arguments from lent bytes, and its reply as a number and as words in a lent output: what the exported functions (crate poxilme) take and give.
#![tactic(auto)]

ghost use Rattle.std.proofs.Common.{lit≤};
ghost use Rattle.std.specs.Prelude.{◌≡◌, true, List, ◌∷◌, ◌++◌, [], ℕ, ◌+◌, ◌*◌, ◌≤◌, length, None};
ghost use Rattle.layout.specs.Layout.{record_size, records_offset};
ghost use Rattle.model.specs.Slots.{u256_words};
ghost use Rattle.model.specs.Contents.{own_value, has_value, value_words};
ghost use Rattle.model.specs.Entries.{slot_of, u256_at};
ghost use Rattle.image.specs.Image.{totals_words};
ghost use Rattle.replies.specs.Replies.{open_reply, put_reply};
ghost use Rattle.layers.specs.Answers.{row_content};
ghost use Rattle.header.specs.Header.{lent_anchor};
ghost use Rattle.lent_calls.specs.Arguments.{reply_size, reply_enough, hash_enough, anchored_enough, slot_enough, put_enough, advance_enough, lent_cap};
ghost use Rattle.lent_calls.specs.Few.{few_installed, few_held, few_advanced, few_read, few_run};
ghost use Rattle.lent_calls.specs.ReplyWords.{with_words, code_of, answer_given, Gives, reply_given, run_words};
ghost use Rattle.lent_calls.specs.Inner.{count_words, unit_words, installed_words, advance_words, read_words, take_words, answered_words, seed_words};

use call_run::RunEnd;
use final_writes::SeedCounts;
use model::delta_snapshot::Slot;
use model::read_hub::{CarryOutcome, ReadTotals};
use model::refusal::Refusal;
use model::storage_memo::{ReadAnchor, U256};
use replies::{Answered, DeltaReport, Installed, OpenReply, PutReply, ReadOutcome};

// The bytes that a lent reply has at least.
pub const REPLY_SIZE: usize = 96;

// The number of an accepted call.
const ACCEPTED: u64 = 0;

// The cap that caps nothing.
pub const UNLIMITED: u64 = 0xffff_ffff_ffff_ffff;

// Whether a lent reply is long enough.
pub fn reply_enough(reply: &[u8]) -> bool
    ensures { result ≡ reply_enough reply.now }
{
    REPLY_SIZE <= reply.len()
}

// Whether a lent hash and a reply are: a hash is empty, or has 32 bytes.
pub fn anchored_enough(hash: &[u8], reply: &[u8]) -> bool
    ensures { result ≡ anchored_enough hash.now reply.now }
{
    reply_enough(reply) && (hash.len() == 0 || 32 <= hash.len())
}

// The same with a slot.
pub fn slot_enough(hash: &[u8], slot: &[u8], reply: &[u8]) -> bool
    ensures { result ≡ slot_enough hash.now slot.now reply.now }
{
    52 <= slot.len() && anchored_enough(hash, reply)
}

// The same with a slot and a value.
pub fn put_enough(hash: &[u8], slot: &[u8], value: &[u8], reply: &[u8]) -> bool
    ensures { result ≡ put_enough hash.now slot.now value.now reply.now }
{
    32 <= value.len() && slot_enough(hash, slot, reply)
}

// The same with a parent's hash.
pub fn advance_enough(hash: &[u8], parent_hash: &[u8], reply: &[u8]) -> bool
    ensures { result ≡ advance_enough hash.now parent_hash.now reply.now }
{
    32 <= parent_hash.len() && anchored_enough(hash, reply)
}

// The anchor of a number and a lent hash.
pub fn anchor(number: u64, hash: &[u8]) -> ReadAnchor
    requires { hash_enough hash.now ≡ true }
    ensures { result ≡ lent_anchor number hash.now }
{
    if hash.len() == 0 {
        return ReadAnchor::at(number);
    }
    ReadAnchor::identified(number, entries::read_u256(hash, 0))
}

// A lent slot.
pub fn slot(b: &[u8]) -> Slot
    requires { 52 ≤ length b.now }
    ensures { result ≡ slot_of b.now }
{
    entries::read_slot(b, 0)
}

// A lent value, or a parent's hash.
pub fn value(b: &[u8]) -> U256
    requires { 32 ≤ length b.now }
    ensures { result ≡ u256_at 0 b.now }
{
    entries::read_u256(b, 0)
}

// The cap of a number.
pub fn cap(n: u64) -> Option<u64>
    ensures { result ≡ lent_cap n }
{
    if n == UNLIMITED { None } else { Some(n) }
}

// The words of a value: 1, and its four.
fn write_value(reply: &mut [u8; REPLY_SIZE], v: U256)
    ensures { reply.new ≡ with_words (1 ∷ u256_words v) reply.old }
{
    image::write_words(reply, 0, [1, v.w0, v.w1, v.w2, v.w3]);
}

// The words of the value of record `row` of a store: 1, and the value's bytes, which stand in the record as in the reply. They go by an array of its own, so that they are compiled to whole moves: the compiler doesn't know that the reply is apart from the store.
pub fn write_row(reply: &mut [u8], s: &[u8], row: usize)
    requires { (reply_size ≤ length reply.old) × (records_offset + record_size * (row + 1) ≤ length s.now) × (has_value (row_content row s.now) ≡ true) }
    ensures { reply.new ≡ with_words (value_words (own_value (row_content row s.now))) reply.old }
{
    let at = layout::RECORDS_OFFSET + layout::RECORD_SIZE * row + layout::VALUE_OFFSET;
    let mut v = [0; 32];
    words::place(&mut v, 0, &s[at..at + 32]);
    words::write_u64(reply, 0, 1);
    words::place(reply, 8, &v);
}

// An advance's words, by those of its outcome.
fn write_report(
    reply: &mut [u8; REPLY_SIZE],
    kind: u64,
    carried: u64,
    lineage: u64,
    skip: u64,
    d: DeltaReport,
)
    ensures { reply.new ≡ with_words ((kind ∷ carried ∷ lineage ∷ skip ∷ []) ++ count_words d) reply.old }
{
    let ws = [
        kind,
        carried,
        lineage,
        skip,
        d.writes.applied,
        d.writes.overwritten,
        d.writes.skipped,
        d.held as u64,
        d.live as u64,
        d.compaction.merged as u64,
        d.compaction.left as u64,
        d.compaction.dropped as u64,
    ];
    image::write_words(reply, 0, ws);
}

// What an accepted call answers, as words at the beginning of its reply.
pub trait ReplyWords: Copy {
    ghost words: { Self → List ℕ };

    fn write(self, reply: &mut [u8; REPLY_SIZE])
        ensures { reply.new ≡ with_words (words self) reply.old };

    // They fit a reply.
    ghost few: { (x : Self) → length (words x) ≤ 12 };
}

// An open's and a put's: none.
impl ReplyWords for () {
    ghost words = { unit_words };

    ghost few = { λ x. lit≤ tt };

    fn write(self, reply: &mut [u8; REPLY_SIZE]) {
        image::write_words(reply, 0, []);
    }
}

// An install's.
impl ReplyWords for Installed {
    ghost words = { installed_words };

    ghost few = { few_installed };

    fn write(self, reply: &mut [u8; REPLY_SIZE]) {
        match self {
            Installed::Same => image::write_words(reply, 0, [0]),
            Installed::Fresh => image::write_words(reply, 0, [1]),
        }
    }
}

// A look's or a get's.
impl ReplyWords for Option<U256> {
    ghost words = { value_words };

    ghost few = { few_held };

    fn write(self, reply: &mut [u8; REPLY_SIZE]) {
        match self {
            None => image::write_words(reply, 0, [0, 0, 0, 0, 0]),
            Some(v) => write_value(reply, v),
        }
    }
}

// An advance's.
impl ReplyWords for DeltaReport {
    ghost words = { advance_words };

    ghost few = { few_advanced };

    fn write(self, reply: &mut [u8; REPLY_SIZE]) {
        let outcome = self.outcome;
        match outcome {
            CarryOutcome::AlreadyCurrent => write_report(reply, 0, 0, 0, 0, self),
            CarryOutcome::Carried(n) => write_report(reply, 1, n, 0, 0, self),
            CarryOutcome::Cold { lineage, bal } => {
                write_report(reply, 2, 0, u64::from(lineage), u64::from(bal), self)
            }
        }
    }
}

// A read's.
impl ReplyWords for ReadOutcome {
    ghost words = { read_words };

    ghost few = { few_read };

    fn write(self, reply: &mut [u8; REPLY_SIZE]) {
        match self {
            ReadOutcome::Value(v) => write_value(reply, v),
            ReadOutcome::Waiting(n) => image::write_words(reply, 0, [0, n, 0, 0, 0]),
        }
    }
}

// A take's: the slots listed.
impl ReplyWords for u64 {
    ghost words = { take_words };

    ghost few = { λ x. lit≤ tt };

    fn write(self, reply: &mut [u8; REPLY_SIZE]) {
        image::write_words(reply, 0, [self]);
    }
}

// An answer's.
impl ReplyWords for Answered {
    ghost words = { answered_words };

    ghost few = { λ x. lit≤ tt };

    fn write(self, reply: &mut [u8; REPLY_SIZE]) {
        image::write_words(reply, 0, [self.members, self.errors, self.woken]);
    }
}

// A run's.
impl ReplyWords for RunEnd {
    ghost words = { run_words };

    ghost few = { few_run };

    fn write(self, reply: &mut [u8; REPLY_SIZE]) {
        match self {
            RunEnd::Listed {
                next,
                written,
                ended,
            } => image::write_words(reply, 0, [ended as u64, next.at as u64, written as u64, 0]),
            RunEnd::Broken {
                fault,
                place,
                written,
            } => image::write_words(reply, 0, [2, place.at as u64, written as u64, fault]),
        }
    }
}

// Read totals, in the order of a store's.
impl ReplyWords for ReadTotals {
    ghost words = { totals_words };

    ghost few = { λ x. lit≤ tt };

    fn write(self, reply: &mut [u8; REPLY_SIZE]) {
        image::write_words(reply, 0, totals::words_of(self));
    }
}

// Those of final writes.
impl ReplyWords for SeedCounts {
    ghost words = { seed_words };

    ghost few = { λ x. lit≤ tt };

    fn write(self, reply: &mut [u8; REPLY_SIZE]) {
        image::write_words(
            reply,
            0,
            [self.writes, self.reads, self.filtered, self.capped],
        );
    }
}

// A call's number, and the words of an accepted call, at the beginning of a reply that is long enough.
pub fn write_reply<T: ReplyWords>(reply: &mut [u8], r: Result<T, Refusal>) -> u64
    requires { reply_size ≤ length reply.old }
    ensures { Gives result reply.new (reply_given T.words r) reply.old }
{
    match r {
        Err(e) => e.number(),
        Ok(done) => {
            if let Some(first) = reply.first_chunk_mut::<REPLY_SIZE>() {
                done.write(first);
            }
            ACCEPTED
        }
    }
}

// The number of an open's reply, which has no words.
#[tactic(auto, using(crate::proofs::Giving::open_given))]
pub fn open_code(r: OpenReply) -> u64
    ensures { result ≡ code_of (answer_given (open_reply r)) }
{
    match r {
        Err(refusal) => refusal.number(),
        Ok(()) => ACCEPTED,
    }
}

// The number of a put's reply, which has none either.
#[tactic(auto, using(crate::proofs::Giving::put_given))]
pub fn put_code(r: PutReply) -> u64
    ensures { result ≡ code_of (answer_given (put_reply r)) }
{
    open_code(r)
}
