// The shift on box A, as one proved table.

#![tactic(auto)]
