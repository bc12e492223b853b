// A block read: whether it is good, and its payload into the spare.

ghost use Rattle.std.specs.Prelude.{◌≡◌, ℕ, ◌+◌, ◌*◌, ◌≤◌, ◌<◌, length, take, drop};
ghost use Rattle.words.specs.Words.{Says};
ghost use Rattle.words.specs.Bytes.{word_at};
ghost use Rattle.machine.specs.Machine.{Fits, Lent};
ghost use Rattle.image.specs.Image.{image_words, number_at, payload_at, payload_words, total};
ghost use Rattle.image.specs.Reader.{Good, payload_of, with_block, ledger_of, memory_of};

use crate::runs::{PAYLOAD_WORDS, runs_of, total, total_word};
use crate::writer::{BODY_BYTES, Block, CHECK, INDEX, NUMBER, PAYLOAD, TOTAL};
use crc32::crc32;
use machine::{FRAME_WORDS, Machine};
use words::word_at;

// Is the fill of block j right?
fn filled(b: Machine, j: u32, block: &Block) -> bool
    ensures { Says result ((i : ℕ) → i < payload_words → image_words b ≤ payload_words * j + i → word_at block.now (payload_at + i) ≡ 0) }
{
    let run = runs_of(b, j);
    for i in run.ledger + run.frames..PAYLOAD_WORDS {
        if word_at(block, PAYLOAD + i) != 0 {
            return false;
        }
    }
    true
}

// Is its number that of the blocks before it, where there are some?
fn same_number(j: u32, number: u32, block: &Block) -> bool
    ensures { Says result ((j ≡ 0 → ⊥) → word_at block.now number_at ≡ number) }
{
    j == 0 || word_at(block, NUMBER) == number
}

// Is the block good as block j, the blocks before it having that number? (The check comes last: it is dear.)
pub fn good(b: Machine, j: u32, number: u32, block: &Block) -> bool
    requires { Fits b }
    ensures { Says result (Good b j number block.now) }
{
    j < total(b)
        && word_at(block, INDEX) == j
        && word_at(block, TOTAL) == total_word(b)
        && same_number(j, number, block)
        && filled(b, j, block)
        && crc32(&block[..BODY_BYTES]) == word_at(block, CHECK)
}

// The words of the payload from its word i on, as many as there is room for.
fn take_run(out: &mut [u32], block: &Block, i: usize)
    requires { i + length out.old ≤ payload_words }
    ensures { out.new ≡ take (length out.old) (drop i (payload_of block.now)) }
{
    for (k, w) in out.iter_mut().enumerate() {
        *w = word_at(block, PAYLOAD + i + k);
    }
}

// The payload of block j to the spare memory and ledger.
#[tactic(auto, using(crate::proofs::Inside::runs_fit))]
pub fn take_payload(b: Machine, mem: &mut [u32], led: &mut [u32], j: u32, block: &Block)
    requires lent { Lent b mem.old led.old }
    requires j_bound { j < total b }
    ensures mem_after { mem.new ≡ memory_of b mem.old (with_block b mem.old led.old j block.now) }
    ensures led_after { led.new ≡ ledger_of b (with_block b mem.old led.old j block.now) }
{
    let run = runs_of(b, j);
    let start = FRAME_WORDS * (b.secure as usize) + run.first;
    take_run(&mut led[run.from..run.from + run.ledger], block, 0);
    take_run(&mut mem[start..start + run.frames], block, run.ledger);
}
