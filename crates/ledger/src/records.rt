// Words of the header and of a page's record.

ghost use Rattle.std.specs.Prelude.{◌≡◌, ◌+◌, ◌*◌, ◌%◌, ◌^◌, ◌≤◌, [], ◌∷◌, length, slice_index, slice_set};
ghost use Rattle.words.specs.Words.{record_words, padded};
ghost use Rattle.machine.specs.Machine.{header_words};
ghost use Rattle.ledger.specs.Ledger.{header, rec, map_of, put, puts, anew, run};
ghost use Rattle.ledger.specs.Names.{data_page};
ghost use Rattle.ledger.specs.Kinds.{type_number};

use crate::kinds::PageType;
use crate::{MAPPING, NAMED_END, RUNNING};
use machine::HEADER_WORDS;
use mapping::Mapping;
use words::RECORD_WORDS;

// Word i of the ledger, 0 past its end.
pub fn read(led: &[u32], i: usize) -> u32
    ensures { result ≡ slice_index led.now i }
{
    led.get(i).copied().unwrap_or(0)
}

// v at word i, nothing past the end.
// kept: tried by `get_mut`, the proof did not close: nothing is known of the words where it gives none
pub fn write(led: &mut [u32], i: usize, v: u32)
    ensures { led.new ≡ slice_set led.old i v }
{
    if i < led.len() {
        led[i] = v;
    }
}

// Word k of the header.
#[tactic(auto, unfolding(crate::specs::Ledger::header))]
pub fn header_word(led: &[u32], k: usize) -> u32
    ensures { result ≡ header led.now k }
{
    read(led, k)
}

// Where word k of page p's record stands in a ledger.
#[inline]
fn place(p: u32, k: u32) -> usize
    ensures { result ≡ header_words + record_words * p + k }
{
    HEADER_WORDS + RECORD_WORDS * (p as usize) + (k as usize)
}

// Word k of page p's record.
#[tactic(auto, unfolding(crate::specs::Ledger::rec))]
pub fn word(led: &[u32], p: u32, k: u32) -> u32
    ensures { result ≡ rec led.now p k }
{
    read(led, place(p, k))
}

// A data page's mapping word.
pub fn mapping_word(led: &[u32], p: u32) -> Mapping
    ensures { result.0 ≡ map_of led.now p }
{
    Mapping(word(led, p, MAPPING))
}

// v at word k of page p's record.
#[tactic(auto, unfolding(crate::specs::Ledger::put))]
pub fn store(led: &mut [u32], p: u32, k: u32, v: u32)
    ensures { led.new ≡ put led.old p k v }
{
    write(led, place(p, k), v);
}

// Word k of page p's record grows by d, and wraps.
pub fn grow(led: &mut [u32], p: u32, k: u32, d: u32)
    ensures { led.new ≡ put led.old p k ((rec led.old p k + d) % 2 ^ 32) }
{
    let w = word(led, p, k);
    store(led, p, k, w.wrapping_add(d));
}

// The words of vs at words k, k + 1, .. of page p's record, each tested.
fn store_each(led: &mut [u32], p: u32, k: u32, vs: &[u32])
    requires { k + length vs.now ≤ record_words }
    ensures { led.new ≡ puts led.old p k vs.now }
{
    for (i, v) in vs.iter().enumerate() {
        store(led, p, k + i as u32, *v);
    }
}

// The words of vs at words k, k + 1, .. of page p's record. Where they lie inside the ledger they are not tested one by one.
#[tactic(auto, using(words::proofs::Paste::part_pasted, crate::proofs::Puts::puts_inside))]
pub fn store_words(led: &mut [u32], p: u32, k: u32, vs: &[u32])
    requires { k + length vs.now ≤ record_words }
    ensures { led.new ≡ puts led.old p k vs.now }
{
    let at = place(p, k);
    if at + vs.len() <= led.len() {
        led[at..at + vs.len()].copy_from_slice(vs);
    } else {
        store_each(led, p, k, vs);
    }
}

// The thread in this page - 1 runs, or nobody.
// kept: a number and no Option: the definition `run`, which its clause cites, and document 01's header have page + 1, or 0
#[tactic(auto, unfolding(crate::specs::Ledger::run, crate::specs::Ledger::put_header))]
pub fn set_running(led: &mut [u32], w: u32)
    ensures { led.new ≡ run led.old w }
{
    write(led, RUNNING, w);
}

// The record of a page: its type, its owner and word 2.
#[tactic(auto, unfolding(words::specs::Words::padded))]
pub fn three(t: PageType, a: u32, x: u32) -> [u32; RECORD_WORDS]
    ensures { result ≡ padded (type_number t ∷ a ∷ x ∷ []) }
{
    let mut r = [0; RECORD_WORDS];
    r[..NAMED_END].copy_from_slice(&[t.number(), a, x]);
    r
}

// Page p gets a record anew: its type, its owner and word 2.
#[tactic(auto, unfolding(crate::specs::Ledger::anew, words::specs::Words::padded))]
pub fn renew(led: &mut [u32], p: u32, t: PageType, a: u32, x: u32)
    ensures { led.new ≡ anew led.old p (type_number t ∷ a ∷ x ∷ []) }
{
    let r = three(t, a, x);
    store_words(led, p, 0, &r);
}

// Page p becomes a data page of a, with its mapping word.
pub fn renew_data(led: &mut [u32], p: u32, a: u32, map: Mapping)
    ensures { led.new ≡ anew led.old p (data_page ∷ a ∷ map.0 ∷ []) }
{
    renew(led, p, PageType::Data, a, map.0);
}
