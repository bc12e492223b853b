// Words of the memory, read and written in place. Reading outside the memory gives 0 and writing outside it does nothing.

#![tactic(auto)]

ghost use Rattle.std.specs.Prelude.{◌≡◌, ◌+◌, ◌*◌, ◌≤◌, ◌<◌, length, MatchOption};
ghost use Rattle.machine.specs.Machine.{frame_words};
ghost use Rattle.memory.specs.Memory.{frame, put_word, copied, wiped};

use machine::FRAME_WORDS;

// Where word k of frame f stands in a memory of len words, if it does.
#[inline]
fn place(len: usize, f: usize, k: usize) -> Option<usize>
    ensures { MatchOption result (len ≤ frame_words * f + k) (λ i. (i ≡ frame_words * f + k) × (i < len)) }
{
    let i = FRAME_WORDS.checked_mul(f)?.checked_add(k)?;
    (i < len).then_some(i)
}

// Word k of frame f.
#[tactic(auto, unfolding(crate::specs::Memory::frame))]
pub fn word(mem: &[u32], f: usize, k: usize) -> u32
    ensures { result ≡ frame mem.now f k }
{
    let Some(i) = place(mem.len(), f, k) else {
        return 0;
    };
    mem[i]
}

// v at word k of frame f.
#[tactic(auto, unfolding(crate::specs::Memory::put_word))]
pub fn put_word(mem: &mut [u32], f: usize, k: usize, v: u32)
    ensures { mem.new ≡ put_word mem.old f k v }
{
    if let Some(i) = place(mem.len(), f, k) {
        mem[i] = v;
    }
}

// Frame g holds the words of frame f.
// kept: word by word, no `copy_within`: docs/HOST.md: MapSecure takes the same number of instructions wherever the frame lies
pub fn copy(mem: &mut [u32], f: usize, g: usize)
    requires { (frame_words * f + frame_words ≤ length mem.old) × (frame_words * g + frame_words ≤ length mem.old) × (f ≡ g → ⊥) }
    ensures { mem.new ≡ copied mem.old f g }
{
    let from = FRAME_WORDS * f;
    let to = FRAME_WORDS * g;
    for i in 0..FRAME_WORDS {
        mem[to + i] = mem[from + i];
    }
}

// Frame g is zero.
pub fn wipe(mem: &mut [u32], g: usize)
    requires { frame_words * g + frame_words ≤ length mem.old }
    ensures { mem.new ≡ wiped mem.old g }
{
    let to = FRAME_WORDS * g;
    mem[to..to + FRAME_WORDS].fill(0);
}
