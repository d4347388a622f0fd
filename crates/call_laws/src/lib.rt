#![tactic(auto)]

// Laws of call lists: what reading a call leaves, and the calls of a list one by one.
