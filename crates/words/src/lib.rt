// Words: bits of one, lists of them in place, their bytes, and numbers of refusals in order. What several crates use and none owns.

#![tactic(auto)]

mod bytes;

ghost use Rattle.std.specs.Prelude.{◌≡◌, ℕ, ◌<◌, ◌≤◌, length, get_or, replicate};
ghost use Rattle.words.specs.Words.{Says, pick, when, or, word_bits, bit_off, bit_on};

pub use bytes::{BYTE, FOURTH, SECOND, THIRD, WORD_BYTES, put_word_at, word_at};

// The words of a record: a page's, a call's, an answer's.
pub const RECORD_WORDS: usize = 32;

// The bits of a word.
pub const WORD_BITS: u32 = 32;

// ---- refusals by number
// kept: numbers, no enum: what may not change: `refuse` and `either` take any number. The monitor's own refusals are an enum (answer)

// A refusal: its number where the test holds, else 0.
pub fn refuse(test: bool, code: u32) -> u32
    ensures { result ≡ when test code }
{
    if test { code } else { 0 }
}

// The first refusal of two.
#[tactic(auto, using(crate::proofs::Codes::or_first, crate::proofs::Codes::or_second))]
pub fn either(c: u32, d: u32) -> u32
    ensures { result ≡ or c d }
{
    if c != 0 { c } else { d }
}

// ---- bits

// The number with bit j 1, or 0.
#[tactic(auto, using(crate::proofs::Bits::or_bit, crate::proofs::Bits::and_not_bit))]
pub fn with_bit(w: u32, j: u32, on: bool) -> u32
    requires { j < word_bits }
    ensures { result ≡ pick on (bit_on w j) (bit_off w j) }
{
    let b = 1u32 << j;
    if on { w | b } else { w & !b }
}

// ---- lists

// All words zero.
// kept: `fill` with a clause of its own: tried `fill` where an answer record is written, and the proof did not close
pub fn clear(out: &mut [u32])
    ensures { out.new ≡ replicate (length out.old) 0 }
{
    out.fill(0);
}

// Are the words from lo on all zero? (All are looked at: with no way out the loop is several words a step.)
// kept: a list and where to start: no plainer as a slice, because its clause speaks of places in the whole list, as its callers' do
#[tactic(auto, using(crate::proofs::Zero::seen_says))]
pub fn all_zero(words: &[u32], lo: usize) -> bool
    ensures { Says result ((k : ℕ) → lo ≤ k → k < length words.now → get_or words.now k 0 ≡ 0) }
{
    let Some(rest) = words.get(lo..) else {
        return true;
    };
    rest.iter().fold(0, |seen, w| seen | *w) == 0
}
