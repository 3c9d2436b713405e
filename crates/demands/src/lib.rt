// Nothing runs here: the demands as theorems, over the contracts of the crates below.
#![tactic(auto)]
