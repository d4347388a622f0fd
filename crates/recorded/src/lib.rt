// The definitions' run of recorded call lists, and the definitions at their limits.
#![tactic(auto)]

ghost use Rattle.recorded.specs.Agree.{RecordedAgree};
ghost use Rattle.recorded.specs.Limits.{AtLimits};

// The contract is that the definitions give the oracle's listing of each recorded list.
pub fn recorded_lists()
    ensures { RecordedAgree }
{}

// The contract is what the definitions give at limits that no recorded list reaches.
pub fn at_limits()
    ensures { AtLimits }
{}
