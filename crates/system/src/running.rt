// Calls 9 and 10: a thread runs, from its entry point or from where it was interrupted.
// kept: machine, memory and ledger side by side: docs/RULES.md, "Forms of the code": memory and ledger are slices of u32

ghost use Rattle.std.specs.Prelude.{◌≡◌, List, ℕ};
ghost use Rattle.answer.specs.Refusals.{number_of};
ghost use Rattle.answer.specs.Answer.{numbers};
ghost use Rattle.system.specs.Calls.{thread_code, enter_code, first_regs, enter_thread, resume_code, saved_regs, resume};

use answer::{Answer, REGS, Refusal, refuse};
use ledger::{
    ENTRY, OWNER, PageType, REGISTERS, SAVED_WORDS, SUSPENDED, State, is_state, is_type,
    set_running, store_words, word,
};
use machine::Machine;

// A thread, of a space that is final.
#[tactic(auto, unfolding(crate::specs::Calls::thread_code, words::specs::Words::or))]
fn check_thread(b: Machine, led: &[u32], t: u32) -> Result<(), Refusal>
    ensures { number_of result ≡ thread_code b led.now t }
{
    refuse(b.pages <= t, Refusal::NoSuchPage)?;
    refuse(!is_type(led, t, PageType::Thread), Refusal::NotThread)?;
    let owner = word(led, t, OWNER);
    refuse(!is_state(led, owner, State::Final), Refusal::OwnerNotFinal)
}

// ---- 9 Enter

// A thread that is not suspended.
#[tactic(auto, unfolding(crate::specs::Calls::enter_code, words::specs::Words::or))]
fn check_enter(b: Machine, led: &[u32], t: u32) -> Result<(), Refusal>
    ensures { number_of result ≡ enter_code b led.now t }
{
    check_thread(b, led, t)?;
    refuse(word(led, t, SUSPENDED) != 0, Refusal::IsSuspended)
}

// The registers of a run that begins: three arguments, and the entry in r15.
fn first_regs(entry: u32, x: u32, y: u32, z: u32) -> [u32; REGS]
    ensures { result ≡ first_regs entry x y z }
{
    [x, y, z, 0, 0, 0, 0, 0, 0, 0, 0, 0, 0, 0, 0, entry, 0]
}

#[tactic(auto, using(crate::proofs::Laws::passes_enter), unfolding(crate::specs::Calls::enter_thread, answer::specs::Answer::unless))]
pub fn enter_thread(
    b: Machine,
    led: &mut [u32],
    t: u32,
    x: u32,
    y: u32,
    z: u32,
) -> Result<Answer, Refusal>
    ensures { (M : List ℕ) → record { ans = numbers result; mem = M; led = led.new } ≡ enter_thread b M led.old t x y z }
{
    check_enter(b, led, t)?;
    let regs = first_regs(word(led, t, ENTRY), x, y, z);
    set_running(led, t + 1);
    Ok(Answer::Runs(regs))
}

// ---- 10 Resume

// A thread that may run, and is suspended.
#[tactic(auto, unfolding(crate::specs::Calls::resume_code, words::specs::Words::or))]
fn check_resume(b: Machine, led: &[u32], t: u32) -> Result<(), Refusal>
    ensures { number_of result ≡ resume_code b led.now t }
{
    check_thread(b, led, t)?;
    refuse(word(led, t, SUSPENDED) == 0, Refusal::NotSuspended)
}

// The registers that thread t holds, and its flags after them.
fn saved_regs(led: &[u32], t: u32) -> [u32; REGS]
    ensures { result ≡ saved_regs led.now t }
{
    let mut regs = [0; REGS];
    for (i, reg) in regs.iter_mut().enumerate() {
        *reg = word(led, t, (REGISTERS + i) as u32);
    }
    regs
}

#[tactic(auto, using(crate::proofs::Laws::passes_resume), unfolding(crate::specs::Calls::resume, answer::specs::Answer::unless))]
pub fn resume(b: Machine, led: &mut [u32], t: u32) -> Result<Answer, Refusal>
    ensures { (M : List ℕ) → record { ans = numbers result; mem = M; led = led.new } ≡ resume b M led.old t }
{
    check_resume(b, led, t)?;
    let regs = saved_regs(led, t);
    store_words(led, t, SUSPENDED, &[0; SAVED_WORDS]);
    set_running(led, t + 1);
    Ok(Answer::Runs(regs))
}
