// Calls 2-8: an address space, its threads, tables, spare and data pages, its insecure mappings, its measurement.
// kept: machine, memory and ledger side by side: docs/RULES.md, "Forms of the code": memory and ledger are slices of u32

#![tactic(auto)]

ghost use Rattle.std.specs.Prelude.{◌≡◌, List, ℕ, ◌+◌, ◌*◌, ◌≤◌, length};
ghost use Rattle.machine.specs.Machine.{frame_words, Lent};
ghost use Rattle.memory.specs.Memory.{words_of};
ghost use Rattle.answer.specs.Refusals.{number_of};
ghost use Rattle.answer.specs.Answer.{numbers};
ghost use Rattle.building.specs.Parts.{block_of, place_code};
ghost use Rattle.building.specs.Calls.{init_addr_space_code, new_space, init_addr_space, init_thread_code, add_thread, new_thread, init_thread, init_table_code, new_table, init_table, alloc_spare_code, new_spare, alloc_spare, map_secure_code, add_page, new_data, map_secure, map_insecure_code, map_insecure, finalised, finalise};

use answer::{
    Answer, Refusal, check_addr, check_building, check_index, check_page, check_space, refuse,
};
use ledger::{
    BLOCKS, DATA_BLOCKS, FIRST_PAGE, HASH_WORDS, PageType, STATE, State, add_blocks, gain_page,
    hash_words, is_state, is_type, occupy_data, occupy_page, occupy_space, put_hash, store, word,
};
use machine::{FRAME_WORDS, Machine};
use mapping::{Mapping, legal_entry};
use sha256::{absorb, compress, finish, start};
use walk::{fill, link, map_page, slot_word};

// What is measured is blocks of so many words.
const BLOCK: usize = 16;

// What was added: a block's first word.
#[derive(Clone, Copy)]
enum Added {
    Thread = 1,
    Page = 2,
}

// The block that says what was added, and its word: an entry point, a mapping.
fn block(added: Added, word: u32) -> [u32; BLOCK]
    ensures { result ≡ block_of added word }
{
    let mut words = [0u32; BLOCK];
    words[0] = added as u32;
    words[1] = word;
    words
}

// ---- 2 InitAddrSpace

// The refusals of call 2.
#[tactic(auto, unfolding(crate::specs::Calls::init_addr_space_code, words::specs::Words::or))]
fn check_init_addr_space(b: Machine, led: &[u32], a: u32, f: u32) -> Result<(), Refusal>
    ensures { number_of result ≡ init_addr_space_code b led.now a f }
{
    refuse(b.pages <= a, Refusal::NoSuchPage)?;
    refuse(b.pages <= f, Refusal::NoSuchPage)?;
    refuse(!is_type(led, a, PageType::Free), Refusal::NotFree)?;
    refuse(!is_type(led, f, PageType::Free), Refusal::NotFree)?;
    refuse(a == f, Refusal::NotFree)
}

// Page a becomes a space, and page f its first-level page.
#[tactic(auto, using(ledger::proofs::Short::occupy_short), unfolding(crate::specs::Calls::new_space))]
fn new_space(led: &mut [u32], a: u32, f: u32)
    ensures { led.new ≡ new_space led.old a f }
{
    occupy_space(led, a, f, start());
    occupy_page(led, f, PageType::FirstLevel, a, 0);
}

// A new address space in page a, with first-level page f.
#[tactic(auto, unfolding(crate::specs::Calls::init_addr_space, answer::specs::Answer::unless))]
pub fn init_addr_space(b: Machine, led: &mut [u32], a: u32, f: u32) -> Result<Answer, Refusal>
    ensures { (M : List ℕ) → record { ans = numbers result; mem = M; led = led.new } ≡ init_addr_space b M led.old a f }
{
    check_init_addr_space(b, led, a, f)?;
    new_space(led, a, f);
    Ok(Answer::Done)
}

// ---- 3 InitThread

// The refusals of call 3.
#[tactic(auto, unfolding(crate::specs::Calls::init_thread_code, words::specs::Words::or))]
fn check_init_thread(b: Machine, led: &[u32], a: u32, t: u32, entry: u32) -> Result<(), Refusal>
    ensures { number_of result ≡ init_thread_code b led.now a t entry }
{
    check_building(b, led, a)?;
    check_page(b, led, t)?;
    refuse(!legal_entry(entry), Refusal::BadEntry)
}

// The hash h with the thread added.
#[tactic(auto, unfolding(crate::specs::Calls::add_thread))]
fn add_thread(h: [u32; HASH_WORDS], entry: u32) -> [u32; HASH_WORDS]
    ensures { result ≡ add_thread h entry }
{
    compress(h, &block(Added::Thread, entry))
}

// Page t becomes a thread of a, measured.
#[tactic(auto, unfolding(crate::specs::Calls::new_thread))]
fn new_thread(led: &mut [u32], a: u32, t: u32, entry: u32)
    ensures { led.new ≡ new_thread led.old a t entry }
{
    let h = add_thread(hash_words(led, a), entry);
    occupy_page(led, t, PageType::Thread, a, entry);
    gain_page(led, a);
    add_blocks(led, a, 1, h);
}

// A thread of a in page t, which starts at this entry.
#[tactic(auto, unfolding(crate::specs::Calls::init_thread, answer::specs::Answer::unless))]
pub fn init_thread(
    b: Machine,
    led: &mut [u32],
    a: u32,
    t: u32,
    entry: u32,
) -> Result<Answer, Refusal>
    ensures { (M : List ℕ) → record { ans = numbers result; mem = M; led = led.new } ≡ init_thread b M led.old a t entry }
{
    check_init_thread(b, led, a, t, entry)?;
    new_thread(led, a, t, entry);
    Ok(Answer::Done)
}

// ---- 4 InitL2PTable

// The refusals of call 4.
#[tactic(auto, unfolding(crate::specs::Calls::init_table_code, words::specs::Words::or))]
fn check_init_table(
    b: Machine,
    mem: &[u32],
    led: &[u32],
    a: u32,
    p: u32,
    i: u32,
) -> Result<(), Refusal>
    ensures { number_of result ≡ init_table_code b mem.now led.now a p i }
{
    check_building(b, led, a)?;
    check_page(b, led, p)?;
    check_index(mem, b.secure, word(led, a, FIRST_PAGE), i)
}

// Page p becomes table i of a.
// kept: one function for a table and one for a spare page: no plainer as one, because each has its definition, which its clause cites
#[tactic(auto, unfolding(crate::specs::Calls::new_table))]
fn new_table(led: &mut [u32], a: u32, p: u32, i: u32)
    ensures { led.new ≡ new_table led.old a p i }
{
    occupy_page(led, p, PageType::SecondLevel, a, i);
    gain_page(led, a);
}

// Table i of a in page p.
#[tactic(auto, unfolding(crate::specs::Calls::init_table, answer::specs::Answer::unless))]
pub fn init_table(
    b: Machine,
    mem: &mut [u32],
    led: &mut [u32],
    a: u32,
    p: u32,
    i: u32,
) -> Result<Answer, Refusal>
    ensures { record { ans = numbers result; mem = mem.new; led = led.new } ≡ init_table b mem.old led.old a p i }
{
    check_init_table(b, mem, led, a, p, i)?;
    link(mem, b.secure, word(led, a, FIRST_PAGE), i, p);
    new_table(led, a, p, i);
    Ok(Answer::Done)
}

// ---- 5 AllocSpare

// The refusals of call 5.
#[tactic(auto, unfolding(crate::specs::Calls::alloc_spare_code, words::specs::Words::or))]
fn check_alloc_spare(b: Machine, led: &[u32], a: u32, p: u32) -> Result<(), Refusal>
    ensures { number_of result ≡ alloc_spare_code b led.now a p }
{
    check_space(b, led, a)?;
    refuse(is_state(led, a, State::Stopped), Refusal::WrongState)?;
    check_page(b, led, p)
}

// Page p becomes a spare page of a.
#[tactic(auto, using(ledger::proofs::Short::occupy_short), unfolding(crate::specs::Calls::new_spare))]
fn new_spare(led: &mut [u32], a: u32, p: u32)
    ensures { led.new ≡ new_spare led.old a p }
{
    occupy_page(led, p, PageType::Spare, a, 0);
    gain_page(led, a);
}

// A spare page of a in page p.
#[tactic(auto, unfolding(crate::specs::Calls::alloc_spare, answer::specs::Answer::unless))]
pub fn alloc_spare(b: Machine, led: &mut [u32], a: u32, p: u32) -> Result<Answer, Refusal>
    ensures { (M : List ℕ) → record { ans = numbers result; mem = M; led = led.new } ≡ alloc_spare b M led.old a p }
{
    check_alloc_spare(b, led, a, p)?;
    new_spare(led, a, p);
    Ok(Answer::Done)
}

// ---- 6 MapSecure

// The slot of the mapping, and the frame g.
#[tactic(auto, unfolding(crate::specs::Parts::place_code, words::specs::Words::or))]
fn check_place(b: Machine, mem: &[u32], f: u32, map: Mapping, g: u32) -> Result<(), Refusal>
    ensures { number_of result ≡ place_code b mem.now f map.0 g }
{
    check_addr(mem, b.secure, f, map)?;
    refuse(!b.insecure(g), Refusal::NotInsecure)
}

// The refusals of call 6.
#[tactic(auto, unfolding(crate::specs::Calls::map_secure_code, crate::specs::Parts::place_code, words::specs::Words::or))]
fn check_map_secure(
    b: Machine,
    mem: &[u32],
    led: &[u32],
    a: u32,
    p: u32,
    map: Mapping,
    g: u32,
) -> Result<(), Refusal>
    ensures { number_of result ≡ map_secure_code b mem.now led.now a p map.0 g }
{
    check_building(b, led, a)?;
    check_page(b, led, p)?;
    refuse(!map.well_formed(), Refusal::IllFormed)?;
    check_place(b, mem, word(led, a, FIRST_PAGE), map, g)
}

// The hash h with the mapping and the words of frame g added.
#[tactic(auto, using(memory::proofs::Frames::part_is), unfolding(crate::specs::Calls::add_page))]
fn add_page(mem: &[u32], h: [u32; HASH_WORDS], map: Mapping, g: usize) -> [u32; HASH_WORDS]
    requires { frame_words * g + frame_words ≤ length mem.now }
    ensures { result ≡ add_page h map.0 (words_of mem.now g) }
{
    let from = FRAME_WORDS * g;
    let to = from + FRAME_WORDS;
    absorb(compress(h, &block(Added::Page, map.0)), &mem[from..to])
}

// Page p becomes a data page of a, with its mapping; h is the hash with it added.
#[tactic(auto, unfolding(crate::specs::Calls::new_data))]
fn new_data(led: &mut [u32], a: u32, p: u32, map: Mapping, h: [u32; HASH_WORDS])
    ensures { led.new ≡ new_data led.old a p map.0 h }
{
    occupy_data(led, p, a, map);
    gain_page(led, a);
    add_blocks(led, a, DATA_BLOCKS, h);
}

// A data page of a in page p, with the words of the insecure frame g. (The frame is read once: what is measured is what was copied, whoever
// writes the frame meanwhile.)
#[tactic(auto, unfolding(crate::specs::Calls::map_secure, answer::specs::Answer::unless))]
pub fn map_secure(
    b: Machine,
    mem: &mut [u32],
    led: &mut [u32],
    a: u32,
    p: u32,
    map: Mapping,
    g: u32,
) -> Result<Answer, Refusal>
    requires { Lent b mem.old led.old }
    ensures { record { ans = numbers result; mem = mem.new; led = led.new } ≡ map_secure b mem.old led.old a p map.0 g }
{
    check_map_secure(b, mem, led, a, p, map, g)?;
    let page = b.frame(p);
    memory::copy(mem, g as usize, page);
    let h = add_page(mem, hash_words(led, a), map, page);
    map_page(mem, b.secure, word(led, a, FIRST_PAGE), map, p);
    new_data(led, a, p, map, h);
    Ok(Answer::Done)
}

// ---- 7 MapInsecure

// The refusals of call 7.
#[tactic(auto, unfolding(crate::specs::Calls::map_insecure_code, crate::specs::Parts::place_code, words::specs::Words::or))]
fn check_map_insecure(
    b: Machine,
    mem: &[u32],
    led: &[u32],
    a: u32,
    map: Mapping,
    g: u32,
) -> Result<(), Refusal>
    ensures { number_of result ≡ map_insecure_code b mem.now led.now a map.0 g }
{
    check_building(b, led, a)?;
    refuse(!map.well_formed(), Refusal::IllFormed)?;
    refuse(map.executes(), Refusal::IllFormed)?;
    check_place(b, mem, word(led, a, FIRST_PAGE), map, g)
}

// A mapping of a that names the insecure frame g.
#[tactic(auto, unfolding(crate::specs::Calls::map_insecure, answer::specs::Answer::unless))]
pub fn map_insecure(
    b: Machine,
    mem: &mut [u32],
    led: &[u32],
    a: u32,
    map: Mapping,
    g: u32,
) -> Result<Answer, Refusal>
    requires { Lent b mem.old led.now }
    ensures { record { ans = numbers result; mem = mem.new; led = led.now } ≡ map_insecure b mem.old led.now a map.0 g }
{
    check_map_insecure(b, mem, led, a, map, g)?;
    fill(
        mem,
        b.secure,
        word(led, a, FIRST_PAGE),
        map.0,
        slot_word(g, map.rights()),
    );
    Ok(Answer::Done)
}

// ---- 8 Finalise

// Space a becomes final, and its hash the measurement.
#[tactic(auto, unfolding(crate::specs::Calls::finalised))]
fn close_space(led: &mut [u32], a: u32)
    ensures { led.new ≡ finalised led.old a }
{
    let h = finish(hash_words(led, a), word(led, a, BLOCKS));
    store(led, a, STATE, State::Final.number());
    put_hash(led, a, h);
}

// The end of building space a.
#[tactic(auto, unfolding(crate::specs::Calls::finalise, answer::specs::Answer::unless))]
pub fn finalise(b: Machine, led: &mut [u32], a: u32) -> Result<Answer, Refusal>
    ensures { (M : List ℕ) → record { ans = numbers result; mem = M; led = led.new } ≡ finalise b M led.old a }
{
    check_building(b, led, a)?;
    close_space(led, a);
    Ok(Answer::Done)
}
