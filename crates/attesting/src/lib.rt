// Calls 32-34: a random word, a MAC over one's measurement and text, and the test of one.

#![tactic(auto)]

ghost use Rattle.std.specs.Prelude.{◌≡◌, List, ◌++◌, ℕ};
ghost use Rattle.answer.specs.Answer.{values};
ghost use Rattle.attesting.specs.Calls.{get_random, mac, attest, same_words, verify};

use answer::{Answer, running_owner};
use ledger::{HASH_WORDS, hash_words, key_words};
use sha256::hmac;

// ---- 32 GetRandom

#[tactic(auto, unfolding(crate::specs::Calls::get_random))]
pub fn get_random(w: u32) -> Answer
    ensures { (M L : List ℕ) → record { ans = values result; mem = M; led = L } ≡ get_random M L w }
{
    Answer::Value(w)
}

// ---- 33 Attest

// What is signed: a measurement and as many words of text.
const SIGNED: usize = 16;

// Eight words and eight more.
fn joined(m: &[u32; HASH_WORDS], d: &[u32; HASH_WORDS]) -> [u32; SIGNED]
    ensures { result ≡ m.now ++ d.now }
{
    let mut both = [0u32; SIGNED];
    both[..HASH_WORDS].copy_from_slice(m);
    both[HASH_WORDS..].copy_from_slice(d);
    both
}

// The MAC over a measurement and a text, by the key.
#[tactic(auto, using(ledger::proofs::Effects::eight_same), unfolding(crate::specs::Calls::mac))]
fn mac_of(
    led: &[u32],
    measurement: &[u32; HASH_WORDS],
    text: &[u32; HASH_WORDS],
) -> [u32; HASH_WORDS]
    ensures { result ≡ mac led.now measurement.now text.now }
{
    let both = joined(measurement, text);
    hmac(&key_words(led), &both)
}

#[tactic(auto, unfolding(crate::specs::Calls::attest))]
pub fn attest(led: &[u32], text: &[u32; HASH_WORDS]) -> Answer
    ensures { (M : List ℕ) → record { ans = values result; mem = M; led = led.now } ≡ attest M led.now text.now }
{
    let measurement = hash_words(led, running_owner(led));
    Answer::Attested(mac_of(led, &measurement, text))
}

// ---- 34 Verify

// Are the words the same?
// kept: not by `==` of arrays: docs/DECISIONS.md: all words are compared, so that the time does not tell where a wrong MAC differs
fn same_words(xs: &[u32; HASH_WORDS], ys: &[u32; HASH_WORDS]) -> bool
    ensures { result ≡ same_words xs.now ys.now }
{
    let mut same = true;
    for (x, y) in xs.iter().zip(ys) {
        same &= x == y;
    }
    same
}

#[tactic(auto, unfolding(crate::specs::Calls::verify))]
pub fn verify(
    led: &[u32],
    text: &[u32; HASH_WORDS],
    measurement: &[u32; HASH_WORDS],
    claim: &[u32; HASH_WORDS],
) -> Answer
    ensures { (M : List ℕ) → record { ans = values result; mem = M; led = led.now } ≡ verify M led.now text.now measurement.now claim.now }
{
    let m = mac_of(led, measurement, text);
    Answer::Value(u32::from(same_words(&m, claim)))
}
