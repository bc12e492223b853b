// Calls 35-37: a spare page becomes a table or a data page, a data page spare again.
// kept: machine, memory and ledger side by side: docs/RULES.md, "Forms of the code": memory and ledger are slices of u32

ghost use Rattle.std.specs.Prelude.{◌≡◌};
ghost use Rattle.machine.specs.Machine.{Lent};
ghost use Rattle.ledger.specs.Kinds.{type_number};
ghost use Rattle.answer.specs.Refusals.{number, number_of};
ghost use Rattle.answer.specs.Answer.{numbers};
ghost use Rattle.enclave.specs.Calls.{first_page, own_code, spare_table_code, spare_table, map_data_code, map_data, unmap_data};

use answer::{Answer, Refusal, check_addr, check_index, refuse, running_owner};
use ledger::{FIRST_PAGE, OWNER, PageType, is_type, mapping_word, renew, renew_data, word};
use machine::Machine;
use mapping::Mapping;
use walk::{fill, link, map_page};

// The first-level page of the running thread's owner.
pub fn first_page(led: &[u32]) -> u32
    ensures { result ≡ first_page led.now }
{
    word(led, running_owner(led), FIRST_PAGE)
}

// Is p a page of the running thread's owner's, of type t?
#[tactic(auto, unfolding(crate::specs::Calls::own_code, words::specs::Words::or))]
fn check_own(b: Machine, led: &[u32], p: u32, t: PageType, no: Refusal) -> Result<(), Refusal>
    ensures { number_of result ≡ own_code b led.now p (type_number t) (number no) }
{
    refuse(b.pages <= p, Refusal::NoSuchPage)?;
    refuse(word(led, p, OWNER) != running_owner(led), no)?;
    refuse(!is_type(led, p, t), no)
}

// ---- 35 InitL2PTable

#[tactic(auto, unfolding(crate::specs::Calls::spare_table_code, words::specs::Words::or))]
fn check_spare_table(b: Machine, mem: &[u32], led: &[u32], p: u32, i: u32) -> Result<(), Refusal>
    ensures { number_of result ≡ spare_table_code b mem.now led.now p i }
{
    check_own(b, led, p, PageType::Spare, Refusal::NotOwnSpare)?;
    check_index(mem, b.secure, first_page(led), i)
}

#[tactic(auto, using(crate::proofs::Laws::passes_spare_table), unfolding(crate::specs::Calls::spare_table, answer::specs::Answer::unless))]
pub fn spare_table(
    b: Machine,
    mem: &mut [u32],
    led: &mut [u32],
    p: u32,
    i: u32,
) -> Result<Answer, Refusal>
    ensures { record { ans = numbers result; mem = mem.new; led = led.new } ≡ spare_table b mem.old led.old p i }
{
    check_spare_table(b, mem, led, p, i)?;
    link(mem, b.secure, first_page(led), i, p);
    let a = running_owner(led);
    renew(led, p, PageType::SecondLevel, a, i);
    Ok(Answer::Done)
}

// ---- 36 MapData

#[tactic(auto, unfolding(crate::specs::Calls::map_data_code, words::specs::Words::or))]
fn check_map_data(b: Machine, mem: &[u32], led: &[u32], p: u32, map: Mapping) -> Result<(), Refusal>
    ensures { number_of result ≡ map_data_code b mem.now led.now p map.0 }
{
    check_own(b, led, p, PageType::Spare, Refusal::NotOwnSpare)?;
    refuse(!map.well_formed(), Refusal::IllFormed)?;
    check_addr(mem, b.secure, first_page(led), map)
}

#[tactic(auto, using(crate::proofs::Laws::passes_map_data), unfolding(crate::specs::Calls::map_data, answer::specs::Answer::unless))]
pub fn map_data(
    b: Machine,
    mem: &mut [u32],
    led: &mut [u32],
    p: u32,
    map: Mapping,
) -> Result<Answer, Refusal>
    requires { Lent b mem.old led.old }
    ensures { record { ans = numbers result; mem = mem.new; led = led.new } ≡ map_data b mem.old led.old p map.0 }
{
    check_map_data(b, mem, led, p, map)?;
    map_page(mem, b.secure, first_page(led), map, p);
    let a = running_owner(led);
    renew_data(led, p, a, map);
    Ok(Answer::Done)
}

// ---- 37 UnmapData

#[tactic(auto, using(crate::proofs::Laws::passes_own, crate::proofs::Steps::spare_short), unfolding(crate::specs::Calls::unmap_data, answer::specs::Answer::unless))]
pub fn unmap_data(b: Machine, mem: &mut [u32], led: &mut [u32], p: u32) -> Result<Answer, Refusal>
    requires { Lent b mem.old led.old }
    ensures { record { ans = numbers result; mem = mem.new; led = led.new } ≡ unmap_data b mem.old led.old p }
{
    check_own(b, led, p, PageType::Data, Refusal::NotOwnData)?;
    let map = mapping_word(led, p);
    fill(mem, b.secure, first_page(led), map.0, 0);
    memory::wipe(mem, b.frame(p));
    let a = running_owner(led);
    renew(led, p, PageType::Spare, a, 0);
    Ok(Answer::Done)
}
