// One record, and the records of a batch in order.
// kept: machine, memory and ledger side by side: docs/RULES.md, "Forms of the code": memory and ledger are slices of u32

ghost use Rattle.std.specs.Prelude.{◌≡◌, ◌+◌, ◌*◌, ◌≤◌, length};
ghost use Rattle.words.specs.Words.{record_words};
ghost use Rattle.machine.specs.Machine.{Lent};
ghost use Rattle.answer.specs.Answer.{numbers};
ghost use Rattle.batch.specs.Batch.{obey, batch};
ghost use Rattle.batch.specs.Turns.{record_of, turned};

use answer::{Answer, Refusal};
use calls::Call;
use machine::Machine;
use records::{check_form, write_answer};
use words::RECORD_WORDS;

// One record: its form, whose turn it is, then the call.
pub fn obey(
    b: Machine,
    mem: &mut [u32],
    led: &mut [u32],
    words: &[u32; RECORD_WORDS],
) -> Result<Answer, Refusal>
    requires { Lent b mem.old led.old }
    ensures { record { ans = numbers result; mem = mem.new; led = led.new } ≡ obey b mem.old led.old words.now }
{
    let call = Call::try_from(words[0])?;
    check_form(led, call.number(), call.arguments(), words)?;
    call.act(b, mem, led, words)
}

// Record j of the calls.
fn record_at(calls: &[u32], j: usize) -> &[u32; RECORD_WORDS]
    requires { record_words * j + record_words ≤ length calls.now }
    ensures { result.now ≡ record_of calls.now j }
{
    let at = RECORD_WORDS * j;
    calls[at..at + RECORD_WORDS].as_array().unwrap()
}

// Record j of the batch: its answer goes to its words of the answers.
// kept: a place in two lists: tried by `as_mut_array`, the proof of what the answers hold afterwards did not close
pub fn turn(
    b: Machine,
    mem: &mut [u32],
    led: &mut [u32],
    calls: &[u32],
    answers: &mut [u32],
    j: usize,
)
    requires { Lent b mem.old led.old × (record_words * j + record_words ≤ length calls.now) × (record_words * j + record_words ≤ length answers.old) }
    ensures { record { ans = answers.new; mem = mem.new; led = led.new } ≡ turned b mem.old led.old calls.now answers.old j }
{
    let from = RECORD_WORDS * j;
    let to = from + RECORD_WORDS;
    let answer = obey(b, mem, led, record_at(calls, j));
    write_answer(answer, &mut answers[from..to]);
}

// k records, one after the other.
#[tactic(auto, using(crate::proofs::Turns::so_far_none, crate::proofs::Turns::so_far_more, crate::proofs::Turns::so_far_all))]
pub fn run(
    b: Machine,
    mem: &mut [u32],
    led: &mut [u32],
    calls: &[u32],
    answers: &mut [u32],
    k: usize,
)
    requires { Lent b mem.old led.old × (length calls.now ≡ record_words * k) × (length answers.old ≡ record_words * k) }
    ensures { record { ans = answers.new; mem = mem.new; led = led.new } ≡ batch b k mem.old led.old calls.now }
{
    for j in 0..k {
        turn(b, mem, led, calls, answers, j);
    }
}
