// Calls 38-42: the end of a run, loads and stores.
// kept: machine, memory and ledger side by side: docs/RULES.md, "Forms of the code": memory and ledger are slices of u32

ghost use Rattle.std.specs.Prelude.{◌≡◌, List, [], ◌∷◌, ◌++◌, ℕ, take, slice_index};
ghost use Rattle.answer.specs.Answer.{values};
ghost use Rattle.enclave.specs.Calls.{exit, top_four, interrupt, fault, load, store};

use crate::pages::first_page;
use answer::{Answer, REGS, running_page};
use ledger::{FLAG, SAVED_WORDS, SUSPENDED, set_running, store_words};
use machine::Machine;
use walk::{address_word, slot_frame, translate};

// ---- 38 Exit

#[tactic(auto, unfolding(crate::specs::Calls::exit))]
pub fn exit(led: &mut [u32], v: u32) -> Answer
    ensures { (M : List ℕ) → record { ans = values result; mem = M; led = led.new } ≡ exit M led.old v }
{
    set_running(led, 0);
    Answer::Value(v)
}

// ---- 39 Interrupt

// Where the flags stand among the registers.
const FLAGS: usize = REGS - 1;

// The top 4 bits of the flags are kept.
fn top_four(w: u32) -> u32
    ensures { result ≡ top_four w }
{
    w / FLAG * FLAG
}

// The suspended thread's words 3-20: 1, the registers, the top 4 bits of the flags.
fn suspended_words(regs: &[u32; REGS]) -> [u32; SAVED_WORDS]
    ensures { result ≡ 1 ∷ take 16 regs.now ++ (top_four (slice_index regs.now 16) ∷ []) }
{
    let mut words = [1u32; SAVED_WORDS];
    words[1..].copy_from_slice(regs);
    words[REGS] = top_four(regs[FLAGS]);
    words
}

#[tactic(auto, unfolding(crate::specs::Calls::interrupt))]
pub fn interrupt(led: &mut [u32], regs: &[u32; REGS]) -> Answer
    ensures { (M : List ℕ) → record { ans = values result; mem = M; led = led.new } ≡ interrupt M led.old regs.now }
{
    let t = running_page(led);
    store_words(led, t, SUSPENDED, &suspended_words(regs));
    set_running(led, 0);
    Answer::Interrupted
}

// ---- 40 Fault

#[tactic(auto, unfolding(crate::specs::Calls::fault))]
pub fn fault(led: &mut [u32]) -> Answer
    ensures { (M : List ℕ) → record { ans = values result; mem = M; led = led.new } ≡ fault M led.old }
{
    set_running(led, 0);
    Answer::Faulted
}

// ---- 41 Load

#[tactic(auto, unfolding(crate::specs::Calls::load, crate::specs::Calls::fault))]
pub fn load(b: Machine, mem: &[u32], led: &mut [u32], va: u32) -> Answer
    ensures { record { ans = values result; mem = mem.now; led = led.new } ≡ load b mem.now led.old va }
{
    let Some(v) = translate(mem, b.secure, first_page(led), va, false) else {
        return fault(led);
    };
    Answer::Value(memory::word(mem, slot_frame(v), address_word(va)))
}

// ---- 42 Store

#[tactic(auto, unfolding(crate::specs::Calls::store, crate::specs::Calls::fault))]
pub fn store(b: Machine, mem: &mut [u32], led: &mut [u32], va: u32, w: u32) -> Answer
    ensures { record { ans = values result; mem = mem.new; led = led.new } ≡ store b mem.old led.old va w }
{
    let Some(v) = translate(mem, b.secure, first_page(led), va, true) else {
        return fault(led);
    };
    memory::put_word(mem, slot_frame(v), address_word(va), w);
    Answer::Done
}
