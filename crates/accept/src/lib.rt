// The acceptance check: yes exactly when what is lent keeps the rules. It writes nothing, stops at the first fault, and reads each
// secure page once, but for the tables' words that are in use and those beside them.
// kept: machine, memory and ledger side by side: docs/RULES.md, "Forms of the code": memory and ledger are slices of u32

#![tactic(auto)]

mod counts;
mod header;
mod links;
mod pages;

ghost use Rattle.words.specs.Words.{Says};
ghost use Rattle.accept.specs.Accept.{Accepted};

use counts::counts_ok;
use header::header_ok;
use machine::Machine;
use pages::pages_ok;

// Is what is lent as it should be?
pub fn accepts(b: Machine, mem: &[u32], led: &[u32]) -> bool
    ensures { Says result (Accepted b mem.now led.now) }
{
    if !b.lent(mem, led) {
        return false;
    }
    if !header_ok(b, led) {
        return false;
    }
    if !counts_ok(b.pages, led) {
        return false;
    }
    pages_ok(b, mem, led)
}
