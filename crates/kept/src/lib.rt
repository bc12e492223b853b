// Every call keeps what acceptance demands: theorems over the definitions of the crates below, no code.

#![tactic(auto)]
