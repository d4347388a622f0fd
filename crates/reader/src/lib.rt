// The reader of the parts of a call list: a place in the list, which goes forward past each part that is read.
#![tactic(auto)]

ghost use Rattle.std.specs.Prelude.{◌≡◌, ◌+◌, ◌≤◌, length};
ghost use Rattle.words.specs.Parts.{part};
ghost use Rattle.model.specs.Entries.{slot_of};
ghost use Rattle.reader.specs.Answers.{fault_number};

use model::delta_snapshot::Slot;
use model::storage_memo::{ReadAnchor, U256};

// A place in a call list.
#[derive(Clone, Copy, Debug, PartialEq, Eq)]
pub struct Cursor {
    pub at: usize,
}

// What is wrong at a place of a call list.
#[derive(Clone, Copy, Debug, PartialEq, Eq)]
pub enum FaultKind {
    // A form byte or a code that is none.
    Unknown,
    // A number that is not in its shortest form, or too large.
    Overlong,
    // The list breaks off.
    Ended,
}

impl From<FaultKind> for u64 {
    ghost from_gives = { λ kind n. n ≡ fault_number kind };

    fn from(kind: FaultKind) -> u64 {
        match kind {
            FaultKind::Unknown => 3,
            FaultKind::Overlong => 4,
            FaultKind::Ended => 5,
        }
    }
}

// A fault, and the place of its byte: the list's end, where it breaks off.
#[derive(Clone, Copy, Debug, PartialEq, Eq)]
pub struct Fault {
    pub kind: FaultKind,
    pub place: Cursor,
}

// Entries that stand one after the other: the place of the first, and how many.
#[derive(Clone, Copy, Debug, PartialEq, Eq)]
pub struct Span {
    pub start: usize,
    pub count: usize,
}

// A list, and the place in it that is read next. At a fault it is the place of the fault's byte.
#[derive(Drop)]
pub struct Reader<'a> {
    pub list: &'a [u8],
    pub at: usize,
    ghost within: { at ≤ length list.now },
}

// The slot at a place.
pub fn slot_at(s: &[u8], at: usize) -> Slot
    requires { at + 52 ≤ length s.now }
    ensures { result ≡ slot_of (part at 52 s.now) }
{
    entries::read_slot(s, at)
}

impl<'a> Reader<'a> {
    ghost use Rattle.std.specs.Prelude.{◌<◌, IfOk};
    ghost use Rattle.call_list.specs.CallList.{number_from, parse_number, parse_bytes, parse_form, parse_u256, parse_slot, parse_anchor};
    ghost use Rattle.reader.specs.Reading.{Reads, Stands, as_is, passed};
    ghost use Rattle.reader.specs.Answers.{run_at, SpanWithin, MembersWithin, fixed_run, past_members, member_run, parse_run};

    // The byte that is read next, if there is one.
    #[tactic(auto, using(crate::proofs::Groups::byte_there))]
    pub fn peek(&self) -> Result<u8, FaultKind>
        ensures { Stands result self.now }
    {
        if self.at == self.list.len() {
            return Err(FaultKind::Ended);
        }
        Ok(self.list[self.at])
    }

    // The next n bytes.
    fn read_bytes(&mut self, n: usize) -> Result<&'a [u8], FaultKind>
        ensures reading { Reads (λ b. b.now) result (parse_bytes n) self.old self.new }
        ensures long { IfOk result (λ b. length b.now ≡ n) }
    {
        let list = self.list;
        let at = self.at;
        if list.len() - at < n {
            self.at = list.len();
            return Err(FaultKind::Ended);
        }
        self.at = at + n;
        Ok(&list[at..at + n])
    }

    // The tenth byte of a number, which is 1 or a fault.
    #[tactic(auto, unfolding(call_list::specs::CallList::number_from))]
    fn read_tenth(&mut self, worth: u64, sum: u64) -> Result<u64, FaultKind>
        requires { (worth ≡ 9223372036854775808) × (sum < worth) }
        ensures { Reads as_is result (number_from 0 worth sum) self.old self.new }
    {
        let last = self.peek()?;
        if last != 1 {
            return Err(FaultKind::Overlong);
        }
        self.at += 1;
        Ok(sum + worth)
    }

    // A number, in groups of seven bits, lowest first; the byte plus 128 where another follows.
    #[tactic(auto, unfolding(call_list::specs::CallList::number_from))]
    pub fn read_number(&mut self) -> Result<u64, FaultKind>
        ensures { Reads as_is result parse_number self.old self.new }
    {
        // How many groups may come before the tenth. The definition counts them down too, so that a `for` would be no plainer.
        let mut groups_left: u8 = 9;
        let mut worth: u64 = 1;
        let mut sum: u64 = 0;
        while 0 < groups_left {
            let b = u64::from(self.peek()?);
            if b < 128 {
                // A last group of 0 after others.
                if b == 0 && 1 < worth {
                    return Err(FaultKind::Overlong);
                }
                self.at += 1;
                return Ok(sum + worth * b);
            }
            sum += worth * (b - 128);
            worth *= 128;
            groups_left -= 1;
            self.at += 1;
        }
        self.read_tenth(worth, sum)
    }

    // A form byte: 0 or 1, else a fault.
    #[tactic(auto, unfolding(call_list::specs::CallList::parse_form))]
    pub fn read_form(&mut self) -> Result<bool, FaultKind>
        ensures { Reads as_is result parse_form self.old self.new }
    {
        let b = self.peek()?;
        if 1 < b {
            return Err(FaultKind::Unknown);
        }
        self.at += 1;
        Ok(b == 1)
    }

    // A 32-byte number.
    pub fn read_u256(&mut self) -> Result<U256, FaultKind>
        ensures { Reads as_is result parse_u256 self.old self.new }
    {
        Ok(entries::read_u256(self.read_bytes(32)?, 0))
    }

    // A slot.
    pub fn read_slot(&mut self) -> Result<Slot, FaultKind>
        ensures { Reads as_is result parse_slot self.old self.new }
    {
        Ok(entries::read_slot(self.read_bytes(52)?, 0))
    }

    // An anchor: number, byte 0, or 1 and hash.
    pub fn read_anchor(&mut self) -> Result<ReadAnchor, FaultKind>
        ensures { Reads as_is result parse_anchor self.old self.new }
    {
        let number = self.read_number()?;
        if !self.read_form()? {
            return Ok(ReadAnchor::at(number));
        }
        let hash = self.read_u256()?;
        Ok(ReadAnchor::identified(number, hash))
    }

    // A count and as many entries of `width` bytes each.
    pub fn read_entries(&mut self, width: usize) -> Result<Span, FaultKind>
        requires { 0 < width }
        ensures reading { Reads (run_at self.old.list.now) result (parse_run (fixed_run width)) self.old self.new }
        ensures spans { IfOk result (SpanWithin width (length self.old.list.now)) }
    {
        let count = self.read_number()? as usize;
        let start = self.at;
        if (self.list.len() - start) / width < count {
            self.at = self.list.len();
            return Err(FaultKind::Ended);
        }
        self.at = start + count * width;
        Ok(Span { start, count })
    }

    // Past one member of an answer: a slot, then 1 and its value, or 0.
    #[tactic(auto, unfolding(crate::specs::Answers::past_members))]
    pub fn pass_member(&mut self) -> Result<(), FaultKind>
        ensures { Reads passed result (past_members 1) self.old self.new }
    {
        self.read_slot()?;
        if self.read_form()? {
            self.read_u256()?;
        }
        Ok(())
    }

    // Past `count` members.
    fn pass_members(&mut self, count: u64) -> Result<(), FaultKind>
        ensures { Reads passed result (past_members count) self.old self.new }
    {
        for _ in 0..count {
            self.pass_member()?;
        }
        Ok(())
    }

    // A count and as many members.
    pub fn read_members(&mut self) -> Result<Span, FaultKind>
        ensures reading { Reads (run_at self.old.list.now) result (parse_run member_run) self.old self.new }
        ensures spans { IfOk result (λ p. MembersWithin self.old.list.now p self.new.at) }
    {
        let count = self.read_number()?;
        let start = self.at;
        self.pass_members(count)?;
        Ok(Span {
            start,
            count: count as usize,
        })
    }
}
