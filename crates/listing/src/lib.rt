// The lines of a listing, written to a lent output.
#![tactic(auto)]

ghost use Rattle.std.specs.Prelude.{[], ◌∷◌, ◌+◌, length};
ghost use Rattle.model.specs.Store.{opened, anchor_same, anchor_fresh, value, no_value, stored, waiting, answered};
ghost use Rattle.call_list.specs.Listing.{ascii, decimal, decimals, slot_hex, line, refusal_line, report_lines};
ghost use Rattle.digits.specs.Output.{Room, Writes};
ghost use Rattle.listing.specs.Lines.{carried_counts, cold_counts, counts_line};

use digits::Output;
use model::delta_snapshot::Slot;
use model::read_hub::CarryOutcome;
use model::storage_memo::U256;

// The byte at a line's end.
const NEWLINE: u8 = 10;

// The counts of an advance's report.
#[derive(Clone, Copy, Debug, PartialEq, Eq)]
pub struct AdvanceCounts {
    pub applied: u64,
    pub overwritten: u64,
    pub skipped: u64,
    pub held: u64,
    pub live: u64,
    pub merged: u64,
    pub left: u64,
    pub dropped: u64,
}

// A number with a blank before it.
fn write_field(out: &mut Output, n: u64)
    requires { Room (1 + length (decimal n)) out.old }
    ensures { Writes (32 ∷ decimal n) out.old out.new }
{
    out.write_byte(32);
    out.write_decimal(n);
}

// A line of a word and the numbers after it, if any.
pub fn word_line(out: &mut Output, word: &[u8], numbers: &[u64])
    requires { Room (length (line word.now (decimals numbers.now))) out.old }
    ensures { Writes (line word.now (decimals numbers.now)) out.old out.new }
{
    out.write_bytes(word);
    for n in numbers {
        write_field(out, *n);
    }
    out.write_byte(NEWLINE);
}

// `no` and a refusal's number.
pub fn refusal_line(out: &mut Output, n: u64)
    requires { Room (length (refusal_line n)) out.old }
    ensures { Writes (refusal_line n) out.old out.new }
{
    word_line(out, b"no", &[n]);
}

// `value` and 64 hex digits.
pub fn value_line(out: &mut Output, v: U256)
    requires { Room (length (report_lines (value v))) out.old }
    ensures { Writes (report_lines (value v)) out.old out.new }
{
    out.write_bytes(b"value ");
    out.write_u256(v);
    out.write_byte(NEWLINE);
}

// `slot` and 104 hex digits.
pub fn slot_line(out: &mut Output, s: Slot)
    requires { Room (length (line (ascii "slot") (slot_hex s ∷ []))) out.old }
    ensures { Writes (line (ascii "slot") (slot_hex s ∷ [])) out.old out.new }
{
    out.write_bytes(b"slot ");
    out.write_slot(s);
    out.write_byte(NEWLINE);
}

// The line of an advance.
pub fn advance_line(out: &mut Output, outcome: CarryOutcome, c: AdvanceCounts)
    requires { Room (length (counts_line outcome c)) out.old }
    ensures { Writes (counts_line outcome c) out.old out.new }
{
    match outcome {
        CarryOutcome::AlreadyCurrent => word_line(out, b"current", &[c.held, c.live]),
        CarryOutcome::Carried(n) => word_line(
            out,
            b"carried",
            &[
                n,
                c.applied,
                c.overwritten,
                c.skipped,
                c.held,
                c.live,
                c.merged,
                c.left,
                c.dropped,
            ],
        ),
        CarryOutcome::Cold { lineage, bal } => {
            let l = u64::from(lineage);
            let k = u64::from(bal);
            word_line(
                out,
                b"cold",
                &[l, k, c.applied, c.overwritten, c.skipped, c.held, c.live],
            )
        }
    }
}
