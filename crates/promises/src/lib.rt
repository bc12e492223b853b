// The promises: theorems over the definitions of the crates below, no code.

#![tactic(auto)]

ghost use Rattle.promises.specs.Promises.{Promises};

// Does nothing. Its contract is all that is promised, so that a promise without a proof fails the gate.
pub fn promised()
    ensures { Promises }
{}
