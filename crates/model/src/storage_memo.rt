// storage_memo.rs: anchors, and the numbers that they and slots are made of.
ghost use Rattle.std.specs.Prelude.{◌≡◌};
ghost use Rattle.model.specs.Slots.{at, identified};

// A 20-byte address as three words, the highest first.
#[derive(Clone, Copy, Debug, PartialEq, Eq, PartialOrd, Ord)]
pub struct Address {
    pub w0: u32,
    pub w1: u64,
    pub w2: u64,
}

// A 32-byte number as four words, the highest first.
#[derive(Clone, Copy, Debug, PartialEq, Eq, PartialOrd, Ord)]
pub struct U256 {
    pub w0: u64,
    pub w1: u64,
    pub w2: u64,
    pub w3: u64,
}

// A block's hash.
pub type B256 = U256;

// The block that values are read at: its number, and its canonical hash where the caller has it.
#[derive(Clone, Copy, Debug, PartialEq, Eq)]
pub struct ReadAnchor {
    pub number: u64,
    pub hash: Option<B256>,
}

impl ReadAnchor {
    // An anchor with a number alone.
    pub fn at(number: u64) -> Self
        ensures { result ≡ at number }
    {
        Self { number, hash: None }
    }

    // The anchor of a number, identified by its hash.
    pub fn identified(number: u64, hash: B256) -> Self
        ensures { result ≡ identified number hash }
    {
        Self {
            number,
            hash: Some(hash),
        }
    }
}
