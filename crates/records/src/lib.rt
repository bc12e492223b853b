// A call record's form, and the writer of an answer record.

#![tactic(auto)]

ghost use Rattle.std.specs.Prelude.{◌≡◌, drop, length, replicate, Err};
ghost use Rattle.words.specs.Words.{record_words, padded, all_zero};
ghost use Rattle.answer.specs.Refusals.{number_of};
ghost use Rattle.answer.specs.Answer.{values, answered, numbers};
ghost use Rattle.records.specs.Records.{turn_code, form_code};

use answer::{Answer, FAULTED, INTERRUPTED, Refusal, refuse};
use ledger::{RUNNING, header_word};
use words::{all_zero, clear};

// Calls below this number are the system's, the others the enclave's.
const ENCLAVE_FIRST: u32 = 32;

// Are the words from `from` on zero? (Most calls have few arguments: at a constant start the test is several words a step.)
// kept: a switch on the start: tried as one call of all_zero, and GetPhysPages took 140 instructions in place of 85
#[tactic(auto, using(words::proofs::Zero::zeros_said))]
fn rest_zero(words: &[u32], from: usize) -> bool
    ensures { result ≡ all_zero (drop from words.now) }
{
    match from {
        1 => all_zero(words, 1),
        2 => all_zero(words, 2),
        3 => all_zero(words, 3),
        4 => all_zero(words, 4),
        5 => all_zero(words, 5),
        _ => all_zero(words, from),
    }
}

// The system's calls while a thread runs, the enclave's while none does.
#[tactic(auto, unfolding(crate::specs::Records::turn_code))]
fn check_turn(led: &[u32], no: u32) -> Result<(), Refusal>
    ensures { number_of result ≡ turn_code led.now no }
{
    let runs = header_word(led, RUNNING) != 0;
    refuse(runs == (no < ENCLAVE_FIRST), Refusal::WrongTime)
}

// A non-zero word after the arguments, then whose turn it is.
#[tactic(auto, unfolding(crate::specs::Records::form_code, words::specs::Words::or))]
pub fn check_form(led: &[u32], no: u32, arguments: u32, words: &[u32]) -> Result<(), Refusal>
    ensures { number_of result ≡ form_code led.now no arguments words.now }
{
    refuse(
        !rest_zero(words, 1 + arguments as usize),
        Refusal::BadRecord,
    )?;
    check_turn(led, no)
}

// The values of a call that was done, into an answer record of zeros.
#[tactic(auto, unfolding(words::specs::Words::padded))]
fn write_values(answer: Answer, out: &mut [u32])
    requires { out.old ≡ replicate record_words 0 }
    ensures { out.new ≡ padded (values answer) }
{
    match answer {
        Answer::Done => {}
        Answer::Value(v) => out[1] = v,
        Answer::Pair(v, w) => {
            out[1] = v;
            out[2] = w;
        }
        Answer::Attested(mac) => out[1..=mac.len()].copy_from_slice(&mac),
        Answer::Runs(regs) => out[1..=regs.len()].copy_from_slice(&regs),
        Answer::Interrupted => out[0] = INTERRUPTED,
        Answer::Faulted => out[0] = FAULTED,
    }
}

// A refusal's number, whatever it is, then zeros.
#[tactic(auto, unfolding(words::specs::Words::padded))]
pub fn write_refused(code: u32, out: &mut [u32])
    requires { length out.old ≡ record_words }
    ensures { out.new ≡ padded (answered (Err code)) }
{
    clear(out);
    out[0] = code;
}

// The answer's numbers, then zeros, into its words.
// kept: a slice and its length: tried as an array by `as_mut_array`, the proof of batch's `turn` did not close
#[tactic(auto, unfolding(words::specs::Words::padded))]
pub fn write_answer(answer: Result<Answer, Refusal>, out: &mut [u32])
    requires { length out.old ≡ record_words }
    ensures { out.new ≡ padded (numbers answer) }
{
    match answer {
        Ok(done) => {
            clear(out);
            write_values(done, out);
        }
        Err(refusal) => write_refused(refusal.number(), out),
    }
}
