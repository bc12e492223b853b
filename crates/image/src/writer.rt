// A block written: three words, the payload, the check.

ghost use Rattle.std.specs.Prelude.{◌≡◌, [], ◌∷◌, ◌+◌, ◌*◌, ◌≤◌, ◌<◌, length, take};
ghost use Rattle.words.specs.Bytes.{word_bytes};
ghost use Rattle.machine.specs.Machine.{Lent};
ghost use Rattle.image.specs.Image.{block_bytes, body_bytes, total, sealed, block_of};
ghost use Rattle.image.specs.Runs.{laid};

use crate::runs::{runs_of, total_word};
use crc32::crc32;
use machine::{FRAME_WORDS, Machine};
use words::{WORD_BYTES, put_word_at};

// The places of a block's words, the bytes before the check, and those of a block.
pub const NUMBER: usize = 0;

pub const INDEX: usize = 1;

pub const TOTAL: usize = 2;

pub const PAYLOAD: usize = 3;

pub const CHECK: usize = 127;

pub const BODY_BYTES: usize = 508;

pub const BLOCK_BYTES: usize = 512;

pub type Block = [u8; BLOCK_BYTES];

// The words from word k of the block on.
#[tactic(auto, using(crate::proofs::Laid::laid_none, crate::proofs::Laid::laid_turn, crate::proofs::Laid::laid_all))]
fn lay(block: &mut Block, k: usize, ws: &[u32])
    requires { word_bytes * (k + length ws.now) ≤ block_bytes }
    ensures { block.new ≡ laid block.old k ws.now }
{
    for (i, w) in ws.iter().enumerate() {
        put_word_at(block, k + i, *w);
    }
}

// The check.
fn seal(block: &mut Block)
    ensures { block.new ≡ sealed (take body_bytes block.old) }
{
    let check = crc32(&block[..BODY_BYTES]);
    put_word_at(block, CHECK, check);
}

// Block j of image `number`: three words, the payload in its runs, its fill, the check.
#[tactic(auto, using(crate::proofs::Inside::runs_fit))]
pub fn write_block(b: Machine, mem: &[u32], led: &[u32], number: u32, j: u32, block: &mut Block)
    requires lent { Lent b mem.now led.now }
    requires j_bound { j < total b }
    ensures { block.new ≡ block_of b mem.now led.now number j }
{
    let run = runs_of(b, j);
    let start = FRAME_WORDS * (b.secure as usize) + run.first;
    let frames = PAYLOAD + run.ledger;
    let fill = frames + run.frames;
    lay(block, NUMBER, &[number, j, total_word(b)]);
    lay(block, PAYLOAD, &led[run.from..run.from + run.ledger]);
    lay(block, frames, &mem[start..start + run.frames]);
    block[WORD_BYTES * fill..WORD_BYTES * CHECK].fill(0);
    seal(block);
}
