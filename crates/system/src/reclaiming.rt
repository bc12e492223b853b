// Calls 1 and 11-13: stopping a space, taking its pages back, and how many are free.
// kept: machine, memory and ledger side by side: docs/RULES.md, "Forms of the code": memory and ledger are slices of u32

ghost use Rattle.std.specs.Prelude.{◌≡◌, List, ℕ};
ghost use Rattle.machine.specs.Machine.{Lent};
ghost use Rattle.answer.specs.Refusals.{number_of};
ghost use Rattle.answer.specs.Answer.{values, numbers};
ghost use Rattle.system.specs.Calls.{get_phys_pages, stop, remove_space_code, remove_other_code, remove_code, left, remove, free_pages};

use answer::{Answer, Refusal, check_space, refuse};
use ledger::{
    COUNT, OWNER, PageType, STATE, State, count_free, is_state, is_type, lose_page, lowest_free,
    store, vacate_page, word,
};
use machine::Machine;

// ---- 1 GetPhysPages

#[tactic(auto, unfolding(crate::specs::Calls::get_phys_pages))]
pub fn get_phys_pages(b: Machine) -> Answer
    ensures { (M L : List ℕ) → record { ans = values result; mem = M; led = L } ≡ get_phys_pages b M L }
{
    Answer::Value(b.pages)
}

// ---- 11 Stop

#[tactic(auto, unfolding(crate::specs::Calls::stop, answer::specs::Answer::unless))]
pub fn stop(b: Machine, led: &mut [u32], a: u32) -> Result<Answer, Refusal>
    ensures { (M : List ℕ) → record { ans = numbers result; mem = M; led = led.new } ≡ stop b M led.old a }
{
    check_space(b, led, a)?;
    store(led, a, STATE, State::Stopped.number());
    Ok(Answer::Done)
}

// ---- 12 Remove

// A space must be stopped, and own nothing.
#[tactic(auto, unfolding(crate::specs::Calls::remove_space_code, words::specs::Words::or))]
fn check_remove_space(led: &[u32], p: u32) -> Result<(), Refusal>
    ensures { number_of result ≡ remove_space_code led.now p }
{
    refuse(!is_state(led, p, State::Stopped), Refusal::NotStopped)?;
    refuse(word(led, p, COUNT) != 0, Refusal::StillOwns)
}

// Another page must be spare, or its owner stopped.
#[tactic(auto, unfolding(crate::specs::Calls::remove_other_code))]
fn check_remove_other(led: &[u32], p: u32) -> Result<(), Refusal>
    ensures { number_of result ≡ remove_other_code led.now p }
{
    if is_type(led, p, PageType::Spare) {
        return Ok(());
    }
    let owner = word(led, p, OWNER);
    refuse(!is_state(led, owner, State::Stopped), Refusal::NotStopped)
}

// Of a page that is in use, by its type.
#[tactic(auto, unfolding(crate::specs::Calls::remove_code, words::specs::Words::or))]
fn check_remove(b: Machine, led: &[u32], p: u32) -> Result<(), Refusal>
    ensures { number_of result ≡ remove_code b led.now p }
{
    refuse(b.pages <= p, Refusal::NoSuchPage)?;
    refuse(is_type(led, p, PageType::Free), Refusal::AlreadyFree)?;
    if is_type(led, p, PageType::Space) {
        return check_remove_space(led, p);
    }
    check_remove_other(led, p)
}

// A page other than a space leaves its owner's count.
#[tactic(auto, unfolding(crate::specs::Calls::left))]
fn leave(led: &mut [u32], p: u32)
    ensures { led.new ≡ left led.old p }
{
    if !is_type(led, p, PageType::Space) {
        lose_page(led, word(led, p, OWNER));
    }
}

#[tactic(auto, using(crate::proofs::Laws::passes_remove), unfolding(crate::specs::Calls::remove, answer::specs::Answer::unless))]
pub fn remove(b: Machine, mem: &mut [u32], led: &mut [u32], p: u32) -> Result<Answer, Refusal>
    requires { Lent b mem.old led.old }
    ensures { record { ans = numbers result; mem = mem.new; led = led.new } ≡ remove b mem.old led.old p }
{
    check_remove(b, led, p)?;
    memory::wipe(mem, b.frame(p));
    leave(led, p);
    vacate_page(led, p);
    Ok(Answer::Done)
}

// ---- 13 FreePages

#[tactic(auto, unfolding(crate::specs::Calls::free_pages, crate::specs::Calls::lowest_free, crate::specs::Calls::free_count))]
pub fn free_pages(b: Machine, led: &[u32]) -> Answer
    ensures { (M : List ℕ) → record { ans = values result; mem = M; led = led.now } ≡ free_pages b M led.now }
{
    let count = count_free(led);
    if count == 0 {
        return Answer::Pair(0, b.pages);
    }
    Answer::Pair(count, lowest_free(led))
}
