// Saved images: ledger and secure frames as blocks, written and read one at a time. What has come is kept in words that the caller lends.
// kept: machine, memory and ledger side by side: docs/RULES.md, "Forms of the code": memory and ledger are slices of u32

#![tactic(auto)]

mod reader;
mod runs;
mod writer;

ghost use Rattle.std.specs.Prelude.{◌≡◌, ◌<◌, length, set, unwrap_or};
ghost use Rattle.words.specs.Words.{Says};
ghost use Rattle.answer.specs.Refusals.{number, number_of};
ghost use Rattle.image.specs.Reader.{answer_word};
ghost use Rattle.image.specs.Service.{BlocksCounted, BlockWritten, ReadFits, told, BlockRead, ReadingEnded};

use accept::accepts;
use answer::Refusal;
use machine::Machine;
use reader::{good, take_payload};
use runs::total;
use words::word_at;
use writer::{NUMBER, write_block};

// The progress words: the answer so far, how many good blocks came (once one was bad, its place), the image's number. One more is not used.
// kept: the C interface, which lends progress as words (include/monitor.h).
const PROGRESS_WORDS: usize = 4;

const ANSWER: usize = 0;

const CAME: usize = 1;

const IMAGE_NUMBER: usize = 2;

// The service: how many blocks an image of this box has.
pub fn blocks(b: Machine) -> Option<u32>
    ensures { BlocksCounted b (unwrap_or result 0) }
{
    if !b.fits() {
        return None;
    }
    Some(total(b))
}

// The service: block `index` of image `number`, or the refusal.
pub fn write(
    b: Machine,
    mem: &[u32],
    led: &[u32],
    number: u32,
    index: u32,
    block: &mut [u8],
) -> Result<(), Refusal>
    ensures { BlockWritten b mem.now led.now number index block.old (number_of result) block.new }
{
    if !b.lent(mem, led) || total(b) <= index {
        return Err(Refusal::IllFitting);
    }
    let Some(block) = block.as_mut_array() else {
        return Err(Refusal::IllFitting);
    };
    write_block(b, mem, led, number, index, block);
    Ok(())
}

// Does what is lent for reading fit?
fn read_fits(b: Machine, mem: &[u32], led: &[u32], progress: &[u32]) -> bool
    ensures { Says result (ReadFits b mem.now led.now progress.now) }
{
    b.lent(mem, led) && progress.len() == PROGRESS_WORDS
}

// What progress says once it is not 0.
fn again(a: u32) -> Refusal
    ensures { number result ≡ told a }
{
    if a == Refusal::NotAccepted.number() {
        Refusal::NotAccepted
    } else {
        Refusal::BadBlock
    }
}

// The refusal, which progress then holds.
fn stop(progress: &mut [u32], refusal: Refusal) -> Result<(), Refusal>
    requires { 0 < length progress.old }
    ensures { (number_of result ≡ number refusal) × (progress.new ≡ set progress.old answer_word (number refusal)) }
{
    progress[ANSWER] = refusal.number();
    Err(refusal)
}

// The service: the next block into a spare memory and ledger.
pub fn read(
    b: Machine,
    mem: &mut [u32],
    led: &mut [u32],
    progress: &mut [u32],
    block: &[u8],
) -> Result<(), Refusal>
    ensures { BlockRead b mem.old led.old progress.old block.now (number_of result) mem.new led.new progress.new }
{
    if !read_fits(b, mem, led, progress) {
        return Err(Refusal::IllFitting);
    }
    let answer = progress[ANSWER];
    if answer != 0 {
        return Err(again(answer));
    }
    let came = progress[CAME];
    let Some(block) = block.as_array() else {
        return stop(progress, Refusal::BadBlock);
    };
    if !good(b, came, progress[IMAGE_NUMBER], block) {
        return stop(progress, Refusal::BadBlock);
    }
    take_payload(b, mem, led, came, block);
    progress[CAME] = came + 1;
    progress[IMAGE_NUMBER] = word_at(block, NUMBER);
    Ok(())
}

// The service: no more comes.
pub fn end(b: Machine, mem: &[u32], led: &[u32], progress: &mut [u32]) -> Result<(), Refusal>
    ensures { ReadingEnded b mem.now led.now progress.old (number_of result) progress.new }
{
    if !read_fits(b, mem, led, progress) {
        return Err(Refusal::IllFitting);
    }
    let answer = progress[ANSWER];
    if answer != 0 {
        return Err(again(answer));
    }
    if progress[CAME] < total(b) {
        return stop(progress, Refusal::BadBlock);
    }
    if !accepts(b, mem, led) {
        return stop(progress, Refusal::NotAccepted);
    }
    Ok(())
}
