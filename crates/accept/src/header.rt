// The header: who runs, the free map, and the words after it.

ghost use Rattle.std.specs.Prelude.{◌≡◌, ℕ, ◌+◌, ◌<◌, ◌≤◌, length};
ghost use Rattle.words.specs.Words.{Says};
ghost use Rattle.machine.specs.Machine.{header_words, map_words, map_start};
ghost use Rattle.ledger.specs.Names.{running_word};
ghost use Rattle.ledger.specs.Ledger.{header, rec};
ghost use Rattle.accept.specs.Accept.{Runs, HeaderOk, free_flag, map_word};

use ledger::{OWNER, PageType, RUNNING, SUSPENDED, State, header_word, is_state, is_type, word};
use machine::{HEADER_WORDS, MAP_END, MAP_START, MAP_WORDS, Machine};
use words::{WORD_BITS, all_zero};

// Does nobody run, or a thread that may?
fn running_ok(b: Machine, led: &[u32]) -> bool
    ensures { Says result ((t : ℕ) → header led.now running_word ≡ t + 1 → Runs b (rec led.now) t) }
{
    let Some(t) = header_word(led, RUNNING).checked_sub(1) else {
        return true;
    };
    if b.pages <= t {
        return false;
    }
    if !is_type(led, t, PageType::Thread) {
        return false;
    }
    if word(led, t, SUSPENDED) != 0 {
        return false;
    }
    is_state(led, word(led, t, OWNER), State::Final)
}

// 1 where p is a page and free.
#[tactic(auto, unfolding(crate::specs::Accept::free_flag))]
fn free_bit(n: u32, led: &[u32], p: u32) -> u32
    ensures { result ≡ free_flag n (rec led.now) p }
{
    u32::from(p < n && is_type(led, p, PageType::Free))
}

// Word j of the free map, by the pages' types. (Past the last page it is 0, and no page is asked.)
fn map_word(n: u32, led: &[u32], j: u32) -> u32
    requires { j < map_words }
    ensures { result ≡ map_word n (rec led.now) j }
{
    if n <= WORD_BITS * j {
        return 0;
    }
    let mut sum: u32 = 0;
    for i in 0..WORD_BITS {
        sum += free_bit(n, led, WORD_BITS * j + i) << i;
    }
    sum
}

// Is the free map right?
fn map_ok(n: u32, led: &[u32]) -> bool
    ensures { Says result ((j : ℕ) → j < map_words → header led.now (map_start + j) ≡ map_word n (rec led.now) j) }
{
    for j in 0..MAP_WORDS {
        if header_word(led, MAP_START + j) != map_word(n, led, j as u32) {
            return false;
        }
    }
    true
}

// Is the header right?
pub fn header_ok(b: Machine, led: &[u32]) -> bool
    requires { header_words ≤ length led.now }
    ensures { Says result (HeaderOk b (header led.now) (rec led.now)) }
{
    if !running_ok(b, led) {
        return false;
    }
    if !map_ok(b.pages, led) {
        return false;
    }
    all_zero(&led[..HEADER_WORDS], MAP_END)
}
