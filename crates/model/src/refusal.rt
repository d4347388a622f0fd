// Why a call is refused. The source has no such type: each of its calls is refused in its own way, or not at all.
ghost use Rattle.std.specs.Prelude.{◌≡◌};
ghost use Rattle.model.specs.Refusals.{refusal_number};

#[derive(Clone, Copy, Debug, PartialEq, Eq)]
pub enum Refusal {
    // An open's capacity is 0 or above 4,096 records.
    CapacityOutOfRange,
    // An open's depth limit is above 255.
    DepthOutOfRange,
    // A form byte is none of those that its call knows.
    UnknownForm,
    // An advance has writes, and a skip.
    SkipWithWrites,
    // A skip's number is above 3.
    SkipOutOfRange,
    // An answer names a slot twice.
    NamesTwice,
    // A lent area is too short.
    LentTooShort,
    // The counts of a block access list differ from the lengths lent.
    CountsDiffer,
    // The bytes are not a store.
    NotAStore,
    // Nothing is installed.
    NothingInstalled,
    // Another anchor is installed.
    AnotherAnchor,
    // There would be more records than the capacity.
    OverCapacity,
    // A new slot would be the 65th awaiting an answer.
    QueueFull,
    // The generation has had all the reads that it counts.
    ReadsExhausted,
    // An answered slot has not been taken.
    NotTaken,
    // A take's output holds fewer entries than the queue.
    OutputTooShort,
}

impl Refusal {
    // The refusal's number.
    pub fn number(self) -> u64
        ensures { result ≡ refusal_number self }
    {
        match self {
            Refusal::CapacityOutOfRange => 1,
            Refusal::DepthOutOfRange => 2,
            Refusal::UnknownForm => 3,
            Refusal::SkipWithWrites => 6,
            Refusal::SkipOutOfRange => 7,
            Refusal::NamesTwice => 8,
            Refusal::LentTooShort => 9,
            Refusal::CountsDiffer => 10,
            Refusal::NotAStore => 20,
            Refusal::NothingInstalled => 21,
            Refusal::AnotherAnchor => 22,
            Refusal::OverCapacity => 23,
            Refusal::QueueFull => 24,
            Refusal::ReadsExhausted => 25,
            Refusal::NotTaken => 26,
            Refusal::OutputTooShort => 27,
        }
    }
}
