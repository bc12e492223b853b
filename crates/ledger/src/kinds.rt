// The types of a page and the states of an address space, and the words that stand for them.

ghost use Rattle.std.specs.Prelude.{◌≡◌, eqb};
ghost use Rattle.ledger.specs.Kinds.{type_number, state_number, Typed};
ghost use Rattle.ledger.specs.Ledger.{type_of, state_of};

use crate::records::word;
use crate::{STATE, TYPE};

// What a page is for.
#[derive(Clone, Copy, PartialEq, Eq)]
pub enum PageType {
    Free,
    Space,
    Thread,
    FirstLevel,
    SecondLevel,
    Data,
    Spare,
}

// How far an address space has come.
#[derive(Clone, Copy, PartialEq, Eq)]
pub enum State {
    Building,
    Final,
    Stopped,
}

// A word that stands for no type.
#[derive(Clone, Copy, PartialEq, Eq)]
pub struct NoType(pub u32);

impl PageType {
    pub fn number(self) -> u32
        ensures { result ≡ type_number self }
    {
        self as u32
    }
}

impl State {
    pub fn number(self) -> u32
        ensures { result ≡ state_number self }
    {
        self as u32
    }
}

impl TryFrom<u32> for PageType {
    type Error = NoType;

    ghost try_from_gives = { Typed };

    fn try_from(word: u32) -> Result<PageType, NoType> {
        match word {
            0 => Ok(PageType::Free),
            1 => Ok(PageType::Space),
            2 => Ok(PageType::Thread),
            3 => Ok(PageType::FirstLevel),
            4 => Ok(PageType::SecondLevel),
            5 => Ok(PageType::Data),
            6 => Ok(PageType::Spare),
            _ => Err(NoType(word)),
        }
    }
}

// Is page p of type t?
pub fn is_type(led: &[u32], p: u32, t: PageType) -> bool
    ensures { result ≡ eqb (type_of led.now p) (type_number t) }
{
    word(led, p, TYPE) == t.number()
}

// Is space a in state s?
pub fn is_state(led: &[u32], a: u32, s: State) -> bool
    ensures { result ≡ eqb (state_of led.now a) (state_number s) }
{
    word(led, a, STATE) == s.number()
}
