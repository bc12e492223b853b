// The sizes of an image, its blocks, and the runs of a payload.

ghost use Rattle.std.specs.Prelude.{◌≡◌};
ghost use Rattle.machine.specs.Machine.{Fits};
ghost use Rattle.image.specs.Image.{ledger_words, secure_words, total, total_word};
ghost use Rattle.image.specs.Runs.{runs_of};

use machine::{FRAME_WORDS, HEADER_WORDS, Machine};
use words::RECORD_WORDS;

pub const PAYLOAD_WORDS: usize = 124;

// Word 2 of a block is the total and this, more than any total that an older image says there.
const TOTAL_FROM: u32 = 65536;

// Of a payload: the ledger's words, `ledger` from word `from` on; then those of the secure frames, `frames` from word `first` of them on.
#[derive(Clone, Copy)]
pub struct Runs {
    pub from: usize,
    pub ledger: usize,
    pub first: usize,
    pub frames: usize,
}

pub fn ledger_words(b: Machine) -> usize
    ensures { result ≡ ledger_words b }
{
    HEADER_WORDS + RECORD_WORDS * (b.pages as usize)
}

pub fn secure_words(b: Machine) -> usize
    ensures { result ≡ secure_words b }
{
    FRAME_WORDS * (b.pages as usize)
}

// How many blocks an image has.
// kept: `Fits b` of total, total_word and good: no plainer, because a type that carries it would wrap the machine at each call.
#[tactic(auto, unfolding(crate::specs::Image::total))]
pub fn total(b: Machine) -> u32
    requires { Fits b }
    ensures { result ≡ total b }
{
    let words = ledger_words(b) + secure_words(b);
    (words as u32).div_ceil(PAYLOAD_WORDS as u32)
}

// What word 2 of a block says of it.
#[tactic(auto, using(crate::proofs::Inside::total_most), unfolding(crate::specs::Image::total_word))]
pub fn total_word(b: Machine) -> u32
    requires { Fits b }
    ensures { result ≡ total_word b }
{
    total(b) + TOTAL_FROM
}

// The runs of block j.
#[tactic(auto, unfolding(crate::specs::Runs::runs_of))]
pub fn runs_of(b: Machine, j: u32) -> Runs
    ensures { result ≡ runs_of b j }
{
    let at = PAYLOAD_WORDS * (j as usize);
    let in_ledger = ledger_words(b);
    let first = at.saturating_sub(in_ledger);
    let ledger = PAYLOAD_WORDS.min(in_ledger.saturating_sub(at));
    let frames = (PAYLOAD_WORDS - ledger).min(secure_words(b).saturating_sub(first));
    Runs {
        from: at.min(in_ledger),
        ledger,
        first,
        frames,
    }
}
