// Nothing runs here: that every event of a history keeps what a record's bytes can hold, and that a host which calls
// exports only has a history of the theorem's world, is a matter of definitions and proofs.
#![tactic(auto)]
