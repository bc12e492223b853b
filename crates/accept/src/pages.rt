// A page, by its type: its record, its owner, its memory, and its part of the tables.

ghost use Rattle.std.specs.Prelude.{◌+◌, ◌*◌, ◌≤◌, length};
ghost use Rattle.words.specs.Words.{record_words, Says};
ghost use Rattle.machine.specs.Machine.{frame_words, header_words, Lent};
ghost use Rattle.ledger.specs.Ledger.{rec};
ghost use Rattle.ledger.specs.Names.{thread_end, type_word};
ghost use Rattle.memory.specs.Memory.{frame};
ghost use Rattle.accept.specs.Accept.{Zeros, SpaceRec};
ghost use Rattle.accept.specs.Checks.{Here, Wiped, Owned, FreePage, SpacePage, ThreadRules, ThreadPage, FirstPage, SecondPage, DataPage, SparePage, Page, Pages};

use crate::links::{first_links, is_page, page_words, reached, second_links};
use ledger::{
    ENTRY, FIRST_PAGE, FLAG, FLAGS, FREE_END, INDEX, NAMED_END, OWNED_END, OWNER, PageType,
    REGISTERS, SPACE_END, STATE, SUSPENDED, State, THREAD_END, TYPE, is_state, is_type,
    mapping_word, word,
};
use machine::{HEADER_WORDS, Machine};
use mapping::{MOST_TABLES, legal_entry};
use words::{RECORD_WORDS, all_zero};

// Are words lo to hi - 1 of page p's record zero?
fn zeros(led: &[u32], p: u32, lo: usize, hi: usize) -> bool
    requires { header_words + record_words * p + hi ≤ length led.now }
    ensures { Says result (Zeros (rec led.now p) lo hi) }
{
    let start = HEADER_WORDS + RECORD_WORDS * (p as usize);
    let end = start + hi;
    all_zero(&led[start..end], lo)
}

// Is page p's memory zero?
fn wiped(b: Machine, mem: &[u32], p: u32) -> bool
    requires { frame_words * (b.secure + p) + frame_words ≤ length mem.now }
    ensures { Says result (Wiped b (frame mem.now) p) }
{
    all_zero(page_words(b, mem, p), 0)
}

// Is page p's owner an address space, and are its words from lo on zero?
fn owned(b: Machine, led: &[u32], lo: usize, p: u32) -> bool
    requires { header_words + record_words * p + record_words ≤ length led.now }
    ensures { Says result (Owned b (rec led.now) lo p) }
{
    let a = word(led, p, OWNER);
    a < b.pages && is_type(led, a, PageType::Space) && zeros(led, p, lo, RECORD_WORDS)
}

// ---- one for each type
// kept: four parameters and `Here`, or that the ledger has page p's record, no struct of them with ghost fields: no plainer, because every
// contract then says self.now.led.now

fn free_page(b: Machine, mem: &[u32], led: &[u32], p: u32) -> bool
    requires { Here b mem.now led.now p }
    ensures { Says result (FreePage b (rec led.now) (frame mem.now) p) }
{
    zeros(led, p, FREE_END, RECORD_WORDS) && wiped(b, mem, p)
}

// Has page p the record of an address space?
fn space_record(b: Machine, led: &[u32], p: u32) -> bool
    requires { header_words + record_words * p + record_words ≤ length led.now }
    ensures { Says result (SpaceRec b.pages p (rec led.now p)) }
{
    word(led, p, OWNER) == p
        && word(led, p, FIRST_PAGE) < b.pages
        && word(led, p, STATE) <= State::Stopped.number()
        && zeros(led, p, SPACE_END, RECORD_WORDS)
}

fn space_page(b: Machine, mem: &[u32], led: &[u32], p: u32) -> bool
    requires { Here b mem.now led.now p }
    ensures { Says result (SpacePage b (rec led.now) (frame mem.now) p) }
{
    space_record(b, led, p)
        && wiped(b, mem, p)
        && (is_state(led, p, State::Stopped)
            || is_page(b, led, p, PageType::FirstLevel, word(led, p, FIRST_PAGE)))
}

// Of a thread whose words after the flags are zero: may it start at its entry, are its registers zero unless it is suspended, and is its owner
// not building if it is?
fn thread_rules(led: &[u32], p: u32) -> bool
    requires record_words_in_bounds { header_words + record_words * p + record_words ≤ length led.now }
    requires zeros { Zeros (rec led.now p) thread_end record_words }
    ensures { Says result (ThreadRules (rec led.now) p) }
{
    if !legal_entry(word(led, p, ENTRY)) {
        return false;
    }
    if word(led, p, FLAGS) % FLAG != 0 {
        return false;
    }
    let suspended = word(led, p, SUSPENDED);
    if suspended == 0 {
        return zeros(led, p, REGISTERS, THREAD_END);
    }
    suspended == 1 && !is_state(led, word(led, p, OWNER), State::Building)
}

fn thread_page(b: Machine, mem: &[u32], led: &[u32], p: u32) -> bool
    requires { Here b mem.now led.now p }
    ensures { Says result (ThreadPage b (rec led.now) (frame mem.now) p) }
{
    owned(b, led, THREAD_END, p) && thread_rules(led, p) && wiped(b, mem, p)
}

fn first_page(b: Machine, mem: &[u32], led: &[u32], p: u32) -> bool
    requires { Here b mem.now led.now p }
    ensures { Says result (FirstPage b (rec led.now) (frame mem.now) p) }
{
    let a = word(led, p, OWNER);
    owned(b, led, OWNED_END, p)
        && (is_state(led, a, State::Stopped) || first_links(b, mem, led, a, p))
}

fn second_page(b: Machine, mem: &[u32], led: &[u32], p: u32) -> bool
    requires { Here b mem.now led.now p }
    ensures { Says result (SecondPage b (rec led.now) (frame mem.now) p) }
{
    let a = word(led, p, OWNER);
    owned(b, led, NAMED_END, p)
        && word(led, p, INDEX) < MOST_TABLES
        && (is_state(led, a, State::Stopped) || second_links(b, mem, led, a, p))
}

fn data_page(b: Machine, mem: &[u32], led: &[u32], p: u32) -> bool
    requires { Here b mem.now led.now p }
    ensures { Says result (DataPage b (rec led.now) (frame mem.now) p) }
{
    let a = word(led, p, OWNER);
    owned(b, led, NAMED_END, p)
        && mapping_word(led, p).well_formed()
        && (is_state(led, a, State::Stopped) || reached(b, mem, led, a, p))
}

fn spare_page(b: Machine, mem: &[u32], led: &[u32], p: u32) -> bool
    requires { Here b mem.now led.now p }
    ensures { Says result (SparePage b (rec led.now) (frame mem.now) p) }
{
    owned(b, led, OWNED_END, p) && wiped(b, mem, p)
}

// Is page p what its type asks?
fn page_ok(b: Machine, mem: &[u32], led: &[u32], p: u32) -> bool
    requires { Here b mem.now led.now p }
    ensures { Says result (Page b (rec led.now) (frame mem.now) p (rec led.now p type_word)) }
{
    match PageType::try_from(word(led, p, TYPE)) {
        Ok(PageType::Free) => free_page(b, mem, led, p),
        Ok(PageType::Space) => space_page(b, mem, led, p),
        Ok(PageType::Thread) => thread_page(b, mem, led, p),
        Ok(PageType::FirstLevel) => first_page(b, mem, led, p),
        Ok(PageType::SecondLevel) => second_page(b, mem, led, p),
        Ok(PageType::Data) => data_page(b, mem, led, p),
        Ok(PageType::Spare) => spare_page(b, mem, led, p),
        Err(_) => false,
    }
}

// Is every page?
pub fn pages_ok(b: Machine, mem: &[u32], led: &[u32]) -> bool
    requires { Lent b mem.now led.now }
    ensures { Says result (Pages b (rec led.now) (frame mem.now)) }
{
    for p in 0..b.pages {
        if !page_ok(b, mem, led, p) {
            return false;
        }
    }
    true
}
