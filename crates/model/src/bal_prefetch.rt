// bal_prefetch.rs: why a list of writes was not read.
ghost use Rattle.std.specs.Prelude.{◌≡◌};
ghost use Rattle.model.specs.Advance.{skip_number, skip_read};

use crate::refusal::Refusal;

// Why a child's list of writes was not read, if it was not.
#[derive(Clone, Copy, Debug, PartialEq, Eq)]
pub enum BalSkip {
    Decoded,
    NoAnchorHash,
    Rpc,
    Decode,
}

// Document 01's number of a skip.
impl From<BalSkip> for u64 {
    ghost from_gives = { λ skip n. n ≡ skip_number skip };

    fn from(skip: BalSkip) -> u64 {
        match skip {
            BalSkip::Decoded => 0,
            BalSkip::NoAnchorHash => 1,
            BalSkip::Rpc => 2,
            BalSkip::Decode => 3,
        }
    }
}

// The skip of a number; one above 3 is refused.
impl TryFrom<u64> for BalSkip {
    type Error = Refusal;

    ghost try_from_gives = { λ n r. r ≡ skip_read n };

    fn try_from(n: u64) -> Result<BalSkip, Refusal> {
        match n {
            0 => Ok(BalSkip::Decoded),
            1 => Ok(BalSkip::NoAnchorHash),
            2 => Ok(BalSkip::Rpc),
            3 => Ok(BalSkip::Decode),
            _ => Err(Refusal::SkipOutOfRange),
        }
    }
}
