// Nothing runs here: the rows are cases of document 01 with the answers that they must have, over the definitions that the
// contracts cite.
#![tactic(auto)]
