// The tables of a space that is not stopped, page by page: what a first-level page, a second-level table and a data page must hold.

ghost use Rattle.std.specs.Prelude.{◌≡◌, ◌+◌, ◌*◌, ◌<◌, ◌≤◌, length};
ghost use Rattle.words.specs.Words.{Says};
ghost use Rattle.machine.specs.Machine.{frame_words};
ghost use Rattle.mapping.specs.Mapping.{rights_end, most_tables};
ghost use Rattle.ledger.specs.Ledger.{rec};
ghost use Rattle.ledger.specs.Names.{index_word};
ghost use Rattle.ledger.specs.Kinds.{type_number};
ghost use Rattle.memory.specs.Memory.{frame, words_of};
ghost use Rattle.accept.specs.Accept.{Is, SlotOk};
ghost use Rattle.accept.specs.Checks.{Here, Names, Inside, FirstLinks, SecondLinks, Reached, WholeStretches, SlotsTake, SlotsPass};

use ledger::{FIRST_PAGE, INDEX, OWNER, PageType, is_type, mapping_word, word};
use machine::{FRAME_WORDS, Machine};
use mapping::{EXECUTE, MOST_TABLES, PAGE_BYTES, RIGHTS_END, TABLE_BYTES};
use walk::slot_word;
use words::all_zero;

// The words of secure page p.
pub fn page_words(b: Machine, mem: &[u32], p: u32) -> &[u32; FRAME_WORDS]
    requires { frame_words * (b.secure + p) + frame_words ≤ length mem.now }
    ensures { result.now ≡ words_of mem.now (b.secure + p) }
{
    let (frames, _) = mem.as_chunks::<FRAME_WORDS>();
    &frames[b.frame(p)]
}

// Word k of secure page p.
fn page_word(b: Machine, mem: &[u32], p: u32, k: u32) -> u32
    ensures { result ≡ frame mem.now (b.secure + p) k }
{
    memory::word(mem, b.frame(p), k as usize)
}

// Is q a page of type t that a owns?
pub fn is_page(b: Machine, led: &[u32], a: u32, t: PageType, q: u32) -> bool
    ensures { Says result (Is b (rec led.now) a (type_number t) q) }
{
    q < b.pages && is_type(led, q, t) && word(led, q, OWNER) == a
}

// The slots of a page that are looked at together: most stretches are empty, which is seen at once.
const STRETCH: usize = 32;

// Does each slot in use pass the test of its place and what it holds? (An empty one is fine.)
fn slots_pass<F: Fn(u32, u32) -> bool>(slots: &[u32], pass: F) -> bool
    requires whole { WholeStretches slots.now }
    requires takes { SlotsTake (F.pre pass) slots.now }
    ensures { SlotsPass (F.post pass) slots.now result }
{
    let (stretches, _) = slots.as_chunks::<STRETCH>();
    for (k, stretch) in stretches.iter().enumerate() {
        if !all_zero(stretch, 0) {
            for (i, held) in stretch.iter().enumerate() {
                if *held != 0 && !pass((STRETCH * k + i) as u32, *held) {
                    return false;
                }
            }
        }
    }
    true
}

// May slot i of a's first-level page hold v: page + 1 of a table of a's with index i?
fn slot_names(b: Machine, led: &[u32], a: u32, i: u32, v: u32) -> bool
    requires { v ≡ 0 → ⊥ }
    ensures { Says result (Names b (rec led.now) a i v) }
{
    let t = v - 1;
    is_page(b, led, a, PageType::SecondLevel, t) && word(led, t, INDEX) == i
}

// Is frame f that of a data page of a's whose mapping word is address (i, j) with these rights?
fn inside(b: Machine, led: &[u32], a: u32, i: u32, j: u32, f: u32, rights: u32) -> bool
    requires { (i < most_tables) × (j < frame_words) × (rights < rights_end) }
    ensures { Says result (Inside b (rec led.now) a i j f rights) }
{
    let Some(d) = f.checked_sub(b.secure) else {
        return false;
    };
    is_page(b, led, a, PageType::Data, d)
        && mapping_word(led, d).0 == i * TABLE_BYTES + j * PAGE_BYTES + rights
}

// May slot j of a's table with index i hold this: an insecure frame without the execute right, or such a data page?
fn slot_ok(b: Machine, led: &[u32], a: u32, i: u32, j: u32, held: u32) -> bool
    requires place { (i < most_tables) × (j < frame_words) }
    requires used { held ≡ 0 → ⊥ }
    ensures { Says result (SlotOk b (rec led.now) a i j held) }
{
    let rights = held % PAGE_BYTES;
    let f = held / PAGE_BYTES;
    if RIGHTS_END <= rights {
        return false;
    }
    if rights % 2 != 1 {
        return false;
    }
    if b.insecure(f) {
        return rights < EXECUTE;
    }
    inside(b, led, a, i, j, f, rights)
}

// Is p the first-level page that a names, and does it name a's tables?
pub fn first_links(b: Machine, mem: &[u32], led: &[u32], a: u32, p: u32) -> bool
    requires { Here b mem.now led.now p }
    ensures { Says result (FirstLinks b (rec led.now) (frame mem.now) a p) }
{
    if word(led, a, FIRST_PAGE) != p {
        return false;
    }
    let page = page_words(b, mem, p);
    let slots = &page[..MOST_TABLES as usize];
    slots_pass(slots, |i, v| slot_names(b, led, a, i, v)) && all_zero(page, MOST_TABLES as usize)
}

// Does a's first-level page name table p, and are the table's slots as they should?
pub fn second_links(b: Machine, mem: &[u32], led: &[u32], a: u32, p: u32) -> bool
    requires here { Here b mem.now led.now p }
    requires index_word_bound { rec led.now p index_word < most_tables }
    ensures { Says result (SecondLinks b (rec led.now) (frame mem.now) a p) }
{
    let i = word(led, p, INDEX);
    if page_word(b, mem, word(led, a, FIRST_PAGE), i) != p + 1 {
        return false;
    }
    let page = page_words(b, mem, p);
    slots_pass(page, |j, held| slot_ok(b, led, a, i, j, held))
}

// Does the slot to which data page d's mapping word leads name it, with its rights?
pub fn reached(b: Machine, mem: &[u32], led: &[u32], a: u32, d: u32) -> bool
    requires { Here b mem.now led.now d }
    ensures { Says result (Reached b (rec led.now) (frame mem.now) a d) }
{
    let map = mapping_word(led, d);
    let named = page_word(b, mem, word(led, a, FIRST_PAGE), map.index());
    let Some(t) = named.checked_sub(1) else {
        return false;
    };
    page_word(b, mem, t, map.slot()) == slot_word(b.secure + d, map.rights())
}
