// What the calls share: the answer, the registers, and the refusals that several calls have.
// kept: machine, memory and ledger side by side: docs/RULES.md, "Forms of the code": memory and ledger are slices of u32
// kept: memory, first secure frame and first-level page side by side, as in the walk

#![tactic(auto)]

mod refusals;

ghost use Rattle.std.specs.Prelude.{◌≡◌};
ghost use Rattle.answer.specs.Refusals.{number_of};
ghost use Rattle.answer.specs.Answer.{as_code, pg_code, building_code, addr_code, index_code, running, owner};

use ledger::{HASH_WORDS, OWNER, PageType, RUNNING, State, header_word, is_state, is_type, word};
use machine::{Machine, frame_of};
use mapping::{MOST_TABLES, Mapping};
pub use refusals::{NoRefusal, Refusal, code, refuse};
use walk::{LEVELS, walk};

// The words of a thread's registers: r0 to r15 and the flags.
pub const REGS: usize = 17;

// The numbers of the two outcomes that have one.
// kept: numbers, no enum: each is a case of Answer, and this is what its record says
pub const INTERRUPTED: u32 = 32;

pub const FAULTED: u32 = 33;

// What a call that no check refuses answers.
#[derive(Clone, Copy)]
pub enum Answer {
    Done,
    Value(u32),
    Pair(u32, u32),
    Attested([u32; HASH_WORDS]),
    Runs([u32; REGS]),
    Interrupted,
    Faulted,
}

// AS.
// kept: two functions, AS and PG: no plainer as one, because each is a line of the document, and its clause cites that
#[tactic(auto, unfolding(crate::specs::Answer::as_code, words::specs::Words::or))]
pub fn check_space(b: Machine, led: &[u32], a: u32) -> Result<(), Refusal>
    ensures { number_of result ≡ as_code b led.now a }
{
    refuse(b.pages <= a, Refusal::NoSuchPage)?;
    refuse(!is_type(led, a, PageType::Space), Refusal::NotSpace)
}

// PG.
#[tactic(auto, unfolding(crate::specs::Answer::pg_code, words::specs::Words::or))]
pub fn check_page(b: Machine, led: &[u32], p: u32) -> Result<(), Refusal>
    ensures { number_of result ≡ pg_code b led.now p }
{
    refuse(b.pages <= p, Refusal::NoSuchPage)?;
    refuse(!is_type(led, p, PageType::Free), Refusal::NotFree)
}

// AS, and 4 where the space is not building.
#[tactic(auto, unfolding(crate::specs::Answer::building_code, words::specs::Words::or))]
pub fn check_building(b: Machine, led: &[u32], a: u32) -> Result<(), Refusal>
    ensures { number_of result ≡ building_code b led.now a }
{
    check_space(b, led, a)?;
    refuse(!is_state(led, a, State::Building), Refusal::WrongState)
}

// ADDR.
#[tactic(auto, unfolding(crate::specs::Answer::addr_code))]
pub fn check_addr(mem: &[u32], s: u32, first: u32, map: Mapping) -> Result<(), Refusal>
    ensures { number_of result ≡ addr_code mem.now s first map.0 }
{
    let Some(slot) = walk(mem, s, first, map.0, LEVELS) else {
        return Err(Refusal::NoTable);
    };
    refuse(slot.word != 0, Refusal::SlotTaken)
}

// The index of a table, and its slot in the first-level page.
#[tactic(auto, unfolding(crate::specs::Answer::index_code))]
pub fn check_index(mem: &[u32], s: u32, f: u32, i: u32) -> Result<(), Refusal>
    ensures { number_of result ≡ index_code mem.now s f i }
{
    refuse(MOST_TABLES <= i, Refusal::NoSuchIndex)?;
    refuse(
        memory::word(mem, frame_of(s, f), i as usize) != 0,
        Refusal::SlotTaken,
    )
}

// The running thread's page. (0 where none runs, of which nobody asks.)
// kept: 0 and no None: the definition `running`, which its clause cites, is a number for every ledger
pub fn running_page(led: &[u32]) -> u32
    ensures { result ≡ running led.now }
{
    header_word(led, RUNNING).saturating_sub(1)
}

// The space that the running thread's owner is.
pub fn running_owner(led: &[u32]) -> u32
    ensures { result ≡ owner led.now }
{
    word(led, running_page(led), OWNER)
}
