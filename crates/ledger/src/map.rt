// The free map.

ghost use Rattle.std.specs.Prelude.{◌≡◌, ◌*◌};
ghost use Rattle.words.specs.Words.{pick, word_bits, sum_below, least_below};
ghost use Rattle.machine.specs.Machine.{map_words};
ghost use Rattle.ledger.specs.Ledger.{map_bit, map_off, map_on};

use crate::records::{header_word, read, write};
use machine::{MAP_START, MAP_WORDS};
use words::{WORD_BITS, with_bit};

// Page p's bit of the free map made 1, the page is free, or 0, it is in use.
#[tactic(auto, unfolding(crate::specs::Ledger::map_on, crate::specs::Ledger::map_off, crate::specs::Ledger::header))]
pub fn map_bit(led: &mut [u32], p: u32, free: bool)
    ensures { led.new ≡ pick free (map_on led.old p) (map_off led.old p) }
{
    let i = MAP_START + (p / WORD_BITS) as usize;
    let w = with_bit(read(led, i), p % WORD_BITS, free);
    write(led, i, w);
}

// How many ones the free map has.
#[tactic(auto, using(crate::proofs::Ones::count_on))]
pub fn count_free(led: &[u32]) -> u32
    ensures { result ≡ sum_below (word_bits * map_words) (map_bit led.now) }
{
    let mut sum = 0;
    for j in 0..MAP_WORDS {
        sum += header_word(led, MAP_START + j).count_ones();
    }
    sum
}

// The place of the free map's lowest one, or how many bits it has.
// kept: a number and no None: the definition `least_below`, which its clause cites, has that number where there is none
#[tactic(auto, using(crate::proofs::Ones::found_here, crate::proofs::Ones::not_found))]
pub fn lowest_free(led: &[u32]) -> u32
    ensures { result ≡ least_below (word_bits * map_words) (map_bit led.now) }
{
    for j in 0..MAP_WORDS {
        let w = header_word(led, MAP_START + j);
        if w != 0 {
            return WORD_BITS * (j as u32) + w.trailing_zeros();
        }
    }
    WORD_BITS * (MAP_WORDS as u32)
}
