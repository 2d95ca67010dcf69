// Nothing runs here: the runs of crate runs, as calls of a host that calls exports only. They show that what is proved
// of such hosts speaks of something.
#![tactic(auto)]
