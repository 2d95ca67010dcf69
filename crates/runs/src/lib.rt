// Nothing runs here: five lists of events, computed to their end by the machines' definitions, that
// show that the theorem over histories speaks of something.
#![tactic(auto)]
