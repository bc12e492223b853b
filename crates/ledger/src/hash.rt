// The key, and a space's hash or measurement.

ghost use Rattle.std.specs.Prelude.{◌≡◌};
ghost use Rattle.ledger.specs.Ledger.{key, hash, put_hash, measure};

use crate::records::{grow, header_word, store_words, word};
use crate::{BLOCKS, HASH, HASH_WORDS, KEY, KEY_WORDS};
use std::array;

// The key.
pub fn key_words(led: &[u32]) -> [u32; KEY_WORDS]
    ensures { result ≡ key led.now }
{
    array::from_fn(|i| header_word(led, KEY + i))
}

// The hash or measurement of space a.
pub fn hash_words(led: &[u32], a: u32) -> [u32; HASH_WORDS]
    ensures { result ≡ hash led.now a }
{
    array::from_fn(|i| word(led, a, HASH + i as u32))
}

// The hash of space a becomes h.
#[tactic(auto, using(crate::proofs::Effects::eight_same), unfolding(crate::specs::Ledger::put_hash))]
pub fn put_hash(led: &mut [u32], a: u32, h: [u32; HASH_WORDS])
    ensures { led.new ≡ put_hash led.old a h }
{
    store_words(led, a, HASH, &h);
}

// Space a has k blocks more, and its hash is h.
#[tactic(auto, unfolding(crate::specs::Ledger::measure))]
pub fn add_blocks(led: &mut [u32], a: u32, k: u32, h: [u32; HASH_WORDS])
    ensures { led.new ≡ measure led.old a k h }
{
    grow(led, a, BLOCKS, k);
    put_hash(led, a, h);
}
