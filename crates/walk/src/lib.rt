// The walk of the page tables, and what an access and a mapping call do with it.
// kept: memory, first secure frame and first-level page side by side: no plainer as a struct, because some read the memory and some write it

#![tactic(auto)]

ghost use Rattle.std.specs.Prelude.{◌≡◌, ◌+◌, ◌<◌, ◌^◌};
ghost use Rattle.mapping.specs.Mapping.{rights_end};
ghost use Rattle.walk.specs.Walk.{walk, translate, frame_of, word_of, filled, slot_word, mapped, linked};

use machine::frame_of;
use mapping::{ADDRESS_END, Mapping, PAGE_BYTES, WORD_BYTES};

// The slot of an address: the page of the table that has it, and the word that it holds.
#[derive(Clone, Copy, PartialEq, Eq)]
pub struct Slot {
    pub table: u32,
    pub word: u32,
}

// The levels of the tables: a first-level page stands on the second.
pub const LEVELS: u32 = 2;

// The frame that a slot names, and the word of it that an address names.
pub fn slot_frame(v: u32) -> usize
    ensures { result ≡ frame_of v }
{
    (v / PAGE_BYTES) as usize
}

pub fn address_word(va: u32) -> usize
    ensures { result ≡ word_of va }
{
    (va % PAGE_BYTES / WORD_BYTES) as usize
}

// From the table in page p, at its level: 2 for a first-level page, 1 for a second-level table. s is the first secure frame.
#[tactic(auto, unfolding(crate::specs::Walk::walk))]
pub fn walk(mem: &[u32], s: u32, p: u32, va: u32, level: u32) -> Option<Slot>
    ensures { result ≡ walk level mem.now s p va }
{
    if level == 0 {
        return None;
    }
    if level == 1 {
        let word = memory::word(mem, frame_of(s, p), Mapping(va).slot() as usize);
        return Some(Slot { table: p, word });
    }
    let e = memory::word(mem, frame_of(s, p), Mapping(va).index() as usize);
    walk(mem, s, e.checked_sub(1)?, va, level - 1)
}

// The slot's word, where the enclave whose first-level page is `first` may load from, or store to, address va.
#[tactic(auto, unfolding(crate::specs::Walk::translate))]
pub fn translate(mem: &[u32], s: u32, first: u32, va: u32, write: bool) -> Option<u32>
    ensures { result ≡ translate mem.now s first va write }
{
    if va % WORD_BYTES != 0 || ADDRESS_END <= va {
        return None;
    }
    let slot = walk(mem, s, first, va, LEVELS)?;
    if slot.word == 0 {
        return None;
    }
    if write {
        if !Mapping(slot.word).writes() {
            return None;
        }
    }
    Some(slot.word)
}

// The slot of address va holds v, where it has a table.
#[tactic(auto, unfolding(crate::specs::Walk::filled))]
pub fn fill(mem: &mut [u32], s: u32, first: u32, va: u32, v: u32)
    ensures { mem.new ≡ filled mem.old s first va v }
{
    let Some(slot) = walk(mem, s, first, va, LEVELS) else {
        return;
    };
    memory::put_word(mem, frame_of(s, slot.table), Mapping(va).slot() as usize, v);
}

// The slot that names frame f with these rights.
pub fn slot_word(f: u32, rights: u32) -> u32
    requires { (f < 2 ^ 20) × (rights < rights_end) }
    ensures { result ≡ slot_word f rights }
{
    f * PAGE_BYTES + rights
}

// The slot of the mapping word names secure page p.
#[tactic(auto, unfolding(crate::specs::Walk::mapped))]
pub fn map_page(mem: &mut [u32], s: u32, first: u32, map: Mapping, p: u32)
    requires { s + p < 2 ^ 20 }
    ensures { mem.new ≡ mapped mem.old s first map.0 p }
{
    fill(mem, s, first, map.0, slot_word(s + p, map.rights()));
}

// First-level slot i of first-level page f names table p.
#[tactic(auto, unfolding(crate::specs::Walk::linked))]
pub fn link(mem: &mut [u32], s: u32, f: u32, i: u32, p: u32)
    requires { p + 1 < 2 ^ 32 }
    ensures { mem.new ≡ linked mem.old s f i p }
{
    memory::put_word(mem, frame_of(s, f), i as usize, p + 1);
}
