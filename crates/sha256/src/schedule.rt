// The schedule, sixteen words at a time (FIPS 180-4, 6.2.2, step 1).
ghost use Rattle.std.specs.Prelude.{◌≡◌, ◌+◌, ◌%◌, ◌<◌, drop, slice_index, slice_index_or, slice_set};
ghost use Rattle.sha256.specs.Sha256.{◌⊞◌, σ0, σ1, words};

use crate::functions::{small_sigma0, small_sigma1};

// The sum that makes a word.
fn mixed(a: u32, b: u32, c: u32, d: u32) -> u32
    ensures { result ≡ σ1 a ⊞ b ⊞ σ0 c ⊞ d }
{
    small_sigma1(a)
        .wrapping_add(b)
        .wrapping_add(small_sigma0(c))
        .wrapping_add(d)
}

// The word sixteen on takes the place of word i.
fn roll(w: &mut [u32; 16], i: usize)
    requires { i < 16 }
    ensures { w.new ≡ slice_set w.old i (σ1 (slice_index w.old ((i + 14) % 16)) ⊞ slice_index_or w.old ((i + 9) % 16) 0 ⊞ σ0 (slice_index w.old ((i + 1) % 16)) ⊞ slice_index_or w.old i 0) }
{
    w[i] = mixed(w[(i + 14) % 16], w[(i + 9) % 16], w[(i + 1) % 16], w[i]);
}

// The next sixteen words take the place of sixteen.
// kept: tried a loop, slower (10 % more instructions for a page); constant indices keep the words in registers.
pub fn next16(w: &mut [u32; 16])
    ensures { w.new ≡ drop 16 (words 16 w.old) }
{
    roll(w, 0);
    roll(w, 1);
    roll(w, 2);
    roll(w, 3);
    roll(w, 4);
    roll(w, 5);
    roll(w, 6);
    roll(w, 7);
    roll(w, 8);
    roll(w, 9);
    roll(w, 10);
    roll(w, 11);
    roll(w, 12);
    roll(w, 13);
    roll(w, 14);
    roll(w, 15);
}
