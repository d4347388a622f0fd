#![tactic(auto)]

// Call lists and their listing: definitions.
