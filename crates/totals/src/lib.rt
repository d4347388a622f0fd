// The running totals of a generation's reads: lent to a read and to an answer, which count themselves, and kept in a store's bytes.
#![tactic(auto)]

ghost use Rattle.std.specs.Prelude.{◌≡◌, ◌≤◌, length};
ghost use Rattle.layout.specs.Layout.{ends_offset};
ghost use Rattle.model.specs.Reads.{count_answer};
ghost use Rattle.image.specs.Image.{totals_words};
ghost use Rattle.totals.specs.Totals.{Small, Answerable, count_read, totals_of, with_totals};

use model::read_hub::ReadTotals;

// The totals of a store. They are read one by one: through an array each would be named twice.
pub fn read_totals(s: &[u8]) -> ReadTotals
    requires { ends_offset ≤ length s.now }
    ensures { result ≡ totals_of s.now }
{
    ReadTotals {
        accepted: words::read_u64(s, layout::ACCEPTED_OFFSET),
        served: words::read_u64(s, layout::SERVED_OFFSET),
        waiting: words::read_u64(s, layout::WAITING_OFFSET),
        valued: words::read_u64(s, layout::VALUED_OFFSET),
        refused: words::read_u64(s, layout::REFUSED_OFFSET),
        rounds: words::read_u64(s, layout::ROUNDS_OFFSET),
        members: words::read_u64(s, layout::MEMBERS_OFFSET),
        errors: words::read_u64(s, layout::ERRORS_OFFSET),
        coalesced: words::read_u64(s, layout::COALESCED_OFFSET),
    }
}

// The totals as words, in the order of a store's.
pub fn words_of(t: ReadTotals) -> [u64; 9]
    ensures { result ≡ totals_words t }
{
    [
        t.accepted,
        t.served,
        t.waiting,
        t.valued,
        t.refused,
        t.rounds,
        t.members,
        t.errors,
        t.coalesced,
    ]
}

// Puts totals into a store.
pub fn write_totals(s: &mut [u8], t: ReadTotals)
    requires { ends_offset ≤ length s.old }
    ensures { s.new ≡ with_totals t s.old }
{
    image::write_words(s, layout::ACCEPTED_OFFSET, words_of(t));
}

// A read counts itself in the totals that it is lent; `joined` says whether the slot of one that waits was awaiting already.
pub fn count_read(t: &mut ReadTotals, is_served: bool, joined: bool)
    requires { Small t.old }
    ensures { t.new ≡ count_read is_served joined t.old }
{
    t.accepted += 1;
    if is_served {
        t.served += 1;
    } else {
        t.waiting += 1;
        t.coalesced += u64::from(joined);
    }
}

// An answer counts itself in the totals that it is lent: its slots, its refused slots, and the waiters that it wakes with a value and refused.
pub fn count_answer(t: &mut ReadTotals, members: u64, errors: u64, valued: u64, refused: u64)
    requires { Answerable members errors valued refused t.old }
    ensures { t.new ≡ count_answer members errors valued refused t.old }
{
    t.waiting -= valued + refused;
    t.valued += valued;
    t.refused += refused;
    t.members += members;
    t.errors += errors;
    t.rounds += u64::from(members != 0);
}

// A read counts itself in a store.
pub fn record_read(s: &mut [u8], is_served: bool, joined: bool)
    requires { (ends_offset ≤ length s.old) × Small (totals_of s.old) }
    ensures { s.new ≡ with_totals (count_read is_served joined (totals_of s.old)) s.old }
{
    let mut t = read_totals(s);
    count_read(&mut t, is_served, joined);
    write_totals(s, t);
}

// An answer counts itself in a store.
pub fn record_answer(s: &mut [u8], members: u64, errors: u64, valued: u64, refused: u64)
    requires { (ends_offset ≤ length s.old) × Answerable members errors valued refused (totals_of s.old) }
    ensures { s.new ≡ with_totals (count_answer members errors valued refused (totals_of s.old)) s.old }
{
    let mut t = read_totals(s);
    count_answer(&mut t, members, errors, valued, refused);
    write_totals(s, t);
}
