// Nothing runs here: the world of one client and one server, and the theorem over every list of
// events, are definitions and proofs over the machines' definitions.
#![tactic(auto)]
