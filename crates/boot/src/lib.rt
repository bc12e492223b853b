// Boot: a fresh ledger, secure frames zero.
// kept: machine, memory and ledger side by side: docs/RULES.md, "Forms of the code": memory and ledger are slices of u32

#![tactic(auto)]

ghost use Rattle.std.specs.Prelude.{◌≡◌, ◌+◌, ◌*◌, ◌<◌, ◌≤◌, length};
ghost use Rattle.words.specs.Words.{Says, record_words, list_below};
ghost use Rattle.machine.specs.Machine.{frame_words, header_words, map_words};
ghost use Rattle.ledger.specs.Names.{key_words};
ghost use Rattle.answer.specs.Refusals.{number_of};
ghost use Rattle.boot.specs.Boot.{fresh_map, fresh_ledger, fresh_memory, BootFits, Booted};

use answer::Refusal;
use ledger::{KEY, KEY_WORDS};
use machine::{FRAME_WORDS, MAP_END, MAP_START, MAP_WORDS, Machine};
use words::WORD_BITS;

// Do the numbers fit, and the lengths of what is lent?
fn boot_fits(b: Machine, key: &[u32], mem: &[u32], led: &[u32]) -> bool
    ensures { Says result (BootFits b key.now mem.now led.now) }
{
    b.lent(mem, led) && key.len() == KEY_WORDS
}

// The secure frames zero.
#[tactic(auto, using(words::proofs::Paste::part_pasted), unfolding(crate::specs::Boot::fresh_memory))]
fn fresh_memory(b: Machine, mem: &mut [u32])
    requires { frame_words * b.secure + frame_words * b.pages ≤ length mem.old }
    ensures { mem.new ≡ fresh_memory b mem.old }
{
    let from = FRAME_WORDS * (b.secure as usize);
    let to = from + FRAME_WORDS * (b.pages as usize);
    mem[from..to].fill(0);
}

// Word j of the free map where all pages are free: ones for the pages from there on.
// (Not inlined: several words at a time would go by way of floating point, whose state a host's kernel keeps to itself.)
#[inline(never)]
#[tactic(auto, using(crate::proofs::Fresh::map_full, crate::proofs::Fresh::map_part, crate::proofs::Fresh::shift_pos))]
fn fresh_map(b: Machine, j: u32) -> u32
    requires { j < map_words }
    ensures { result ≡ fresh_map b j }
{
    let ones = b.pages.saturating_sub(WORD_BITS * j);
    if WORD_BITS <= ones {
        return u32::MAX;
    }
    (1 << ones) - 1
}

// The free map where all pages are free.
fn fresh_maps(b: Machine) -> [u32; MAP_WORDS]
    ensures { result ≡ list_below map_words (fresh_map b) }
{
    let mut maps = [0; MAP_WORDS];
    for (j, word) in maps.iter_mut().enumerate() {
        *word = fresh_map(b, j as u32);
    }
    maps
}

// Nobody runs, the key, all pages free.
fn fresh_ledger(b: Machine, key: &[u32], led: &mut [u32])
    requires { (length key.now ≡ key_words) × (length led.old ≡ header_words + record_words * b.pages) }
    ensures { led.new ≡ fresh_ledger b key.now }
{
    led.fill(0);
    led[KEY..MAP_START].copy_from_slice(key);
    led[MAP_START..MAP_END].copy_from_slice(&fresh_maps(b));
}

// The service: a fresh box, or the refusal.
pub fn serve(b: Machine, key: &[u32], mem: &mut [u32], led: &mut [u32]) -> Result<(), Refusal>
    ensures { Booted b key.now mem.old led.old (number_of result) mem.new led.new }
{
    if !boot_fits(b, key, mem, led) {
        return Err(Refusal::IllFitting);
    }
    fresh_memory(b, mem);
    fresh_ledger(b, key, led);
    Ok(())
}
