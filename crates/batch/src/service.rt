// The service: a batch, where what is lent fits it and acceptance passes.
// kept: machine, memory and ledger side by side: docs/RULES.md, "Forms of the code": memory and ledger are slices of u32

ghost use Rattle.words.specs.Words.{Says};
ghost use Rattle.answer.specs.Refusals.{number_of};
ghost use Rattle.batch.specs.Service.{BatchFits, Batched};

use crate::list::run;
use accept::accepts;
use answer::Refusal;
use machine::Machine;
use words::RECORD_WORDS;

const MOST_RECORDS: usize = 512;

// Do the lists of a batch fit, and does acceptance pass?
fn batch_fits(b: Machine, mem: &[u32], led: &[u32], calls: &[u32], answers: &[u32]) -> bool
    ensures { Says result (BatchFits b mem.now led.now calls.now answers.now) }
{
    if calls.len() % RECORD_WORDS != 0 {
        return false;
    }
    if RECORD_WORDS * MOST_RECORDS < calls.len() {
        return false;
    }
    if answers.len() != calls.len() {
        return false;
    }
    if !accepts(b, mem, led) {
        return false;
    }
    true
}

// The batch of all the calls, or 18.
pub fn serve(
    b: Machine,
    mem: &mut [u32],
    led: &mut [u32],
    calls: &[u32],
    answers: &mut [u32],
) -> Result<(), Refusal>
    ensures { Batched b mem.old led.old calls.now answers.old (number_of result) mem.new led.new answers.new }
{
    if !batch_fits(b, mem, led, calls, answers) {
        return Err(Refusal::IllFitting);
    }
    run(b, mem, led, calls, answers, calls.len() / RECORD_WORDS);
    Ok(())
}
