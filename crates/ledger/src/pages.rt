// A page comes into use or becomes free, and its owner's count follows.

ghost use Rattle.std.specs.Prelude.{◌≡◌, [], ◌∷◌};
ghost use Rattle.words.specs.Words.{padded};
ghost use Rattle.ledger.specs.Names.{space, building, data_page};
ghost use Rattle.ledger.specs.Kinds.{type_number};
ghost use Rattle.ledger.specs.Ledger.{occupy, vacate, gain, lose};

use crate::kinds::PageType;
use crate::map::map_bit;
use crate::records::{grow, renew, store_words, three};
use crate::{COUNT, HASH, HASH_WORDS, SPACE_END};
use mapping::Mapping;
use words::RECORD_WORDS;

// Added to a word, it takes one away.
// kept: a sum that wraps: the definition `lose`, which its clause cites, adds it
const MINUS_ONE: u32 = u32::MAX;

// A free page p becomes a page with this record.
#[tactic(auto, unfolding(crate::specs::Ledger::occupy))]
pub fn occupy_page(led: &mut [u32], p: u32, t: PageType, a: u32, x: u32)
    ensures { led.new ≡ occupy led.old p (type_number t ∷ a ∷ x ∷ []) }
{
    renew(led, p, t, a, x);
    map_bit(led, p, false);
}

// The record of a new space: its first-level page, building, one page owned, no blocks, its hash.
fn space_record(a: u32, f: u32, h: [u32; HASH_WORDS]) -> [u32; RECORD_WORDS]
    ensures { result ≡ padded (space ∷ a ∷ f ∷ building ∷ 1 ∷ 0 ∷ h) }
{
    let mut r = three(PageType::Space, a, f);
    r[COUNT as usize] = 1;
    r[HASH as usize..SPACE_END].copy_from_slice(&h);
    r
}

// A free page a becomes a new space.
#[tactic(auto, unfolding(crate::specs::Ledger::occupy, crate::specs::Ledger::anew))]
pub fn occupy_space(led: &mut [u32], a: u32, f: u32, h: [u32; HASH_WORDS])
    ensures { led.new ≡ occupy led.old a (space ∷ a ∷ f ∷ building ∷ 1 ∷ 0 ∷ h) }
{
    let r = space_record(a, f, h);
    store_words(led, a, 0, &r);
    map_bit(led, a, false);
}

// A free page p becomes a data page of a.
pub fn occupy_data(led: &mut [u32], p: u32, a: u32, map: Mapping)
    ensures { led.new ≡ occupy led.old p (data_page ∷ a ∷ map.0 ∷ []) }
{
    occupy_page(led, p, PageType::Data, a, map.0);
}

// Page p becomes free.
#[tactic(auto, unfolding(crate::specs::Ledger::vacate, crate::specs::Ledger::anew, words::specs::Words::padded))]
pub fn vacate_page(led: &mut [u32], p: u32)
    ensures { led.new ≡ vacate led.old p }
{
    store_words(led, p, 0, &[0; RECORD_WORDS]);
    map_bit(led, p, true);
}

// Space a owns one page more.
#[tactic(auto, unfolding(crate::specs::Ledger::gain))]
pub fn gain_page(led: &mut [u32], a: u32)
    ensures { led.new ≡ gain led.old a }
{
    grow(led, a, COUNT, 1);
}

// Space a owns one page less.
#[tactic(auto, unfolding(crate::specs::Ledger::lose))]
pub fn lose_page(led: &mut [u32], a: u32)
    ensures { led.new ≡ lose led.old a }
{
    grow(led, a, COUNT, MINUS_ONE);
}
