// Why a call or a service is refused. Each refusal has the documents' number and a name in words.

ghost use Rattle.std.specs.Prelude.{◌≡◌};
ghost use Rattle.words.specs.Words.{when};
ghost use Rattle.answer.specs.Refusals.{number, number_of, Numbered};

use std::fmt;

#[derive(Clone, Copy, PartialEq, Eq)]
pub enum Refusal {
    NoSuchPage = 1,
    NotFree = 2,
    NotSpace = 3,
    WrongState = 4,
    OwnerNotFinal = 5,
    IllFormed = 6,
    SlotTaken = 7,
    NoTable = 8,
    NotInsecure = 9,
    NotThread = 10,
    IsSuspended = 11,
    NotSuspended = 12,
    NotStopped = 13,
    StillOwns = 14,
    WrongTime = 15,
    NotOwnSpare = 16,
    NotOwnData = 17,
    IllFitting = 18,
    BadRecord = 19,
    NoSuchIndex = 21,
    AlreadyFree = 22,
    BadEntry = 23,
    BadBlock = 25,
    NotAccepted = 26,
}

// A number that no refusal has.
#[derive(Clone, Copy, PartialEq, Eq)]
pub struct NoRefusal(pub u32);

impl Refusal {
    pub fn number(self) -> u32
        ensures { result ≡ number self }
    {
        self as u32
    }
}

// The refusal where the test holds.
pub fn refuse(test: bool, refusal: Refusal) -> Result<(), Refusal>
    ensures { number_of result ≡ when test (number refusal) }
{
    if test { Err(refusal) } else { Ok(()) }
}

// 0, or the refusal's number: the answer that a host is given.
pub fn code(checked: Result<(), Refusal>) -> u32
    ensures { result ≡ number_of checked }
{
    match checked {
        Ok(()) => 0,
        Err(refusal) => refusal.number(),
    }
}

impl TryFrom<u32> for Refusal {
    type Error = NoRefusal;

    ghost try_from_gives = { Numbered };

    fn try_from(word: u32) -> Result<Refusal, NoRefusal> {
        match word {
            1 => Ok(Refusal::NoSuchPage),
            2 => Ok(Refusal::NotFree),
            3 => Ok(Refusal::NotSpace),
            4 => Ok(Refusal::WrongState),
            5 => Ok(Refusal::OwnerNotFinal),
            6 => Ok(Refusal::IllFormed),
            7 => Ok(Refusal::SlotTaken),
            8 => Ok(Refusal::NoTable),
            9 => Ok(Refusal::NotInsecure),
            10 => Ok(Refusal::NotThread),
            11 => Ok(Refusal::IsSuspended),
            12 => Ok(Refusal::NotSuspended),
            13 => Ok(Refusal::NotStopped),
            14 => Ok(Refusal::StillOwns),
            15 => Ok(Refusal::WrongTime),
            16 => Ok(Refusal::NotOwnSpare),
            17 => Ok(Refusal::NotOwnData),
            18 => Ok(Refusal::IllFitting),
            19 => Ok(Refusal::BadRecord),
            21 => Ok(Refusal::NoSuchIndex),
            22 => Ok(Refusal::AlreadyFree),
            23 => Ok(Refusal::BadEntry),
            25 => Ok(Refusal::BadBlock),
            26 => Ok(Refusal::NotAccepted),
            _ => Err(NoRefusal(word)),
        }
    }
}

impl fmt::Display for Refusal {
    fn fmt<W: fmt::Write>(&self, f: &mut fmt::Formatter<W>) -> fmt::Result {
        f.write_str(match self {
            Refusal::NoSuchPage => "no such page",
            Refusal::NotFree => "not free",
            Refusal::NotSpace => "not an address space",
            Refusal::WrongState => "wrong state",
            Refusal::OwnerNotFinal => "not final",
            Refusal::IllFormed => "bad mapping",
            Refusal::SlotTaken => "taken",
            Refusal::NoTable => "no table",
            Refusal::NotInsecure => "not insecure",
            Refusal::NotThread => "not a thread",
            Refusal::IsSuspended => "suspended",
            Refusal::NotSuspended => "not suspended",
            Refusal::NotStopped => "not stopped",
            Refusal::StillOwns => "still owns",
            Refusal::WrongTime => "wrong time",
            Refusal::NotOwnSpare => "not own spare",
            Refusal::NotOwnData => "not own data",
            Refusal::IllFitting => "ill-fitting",
            Refusal::BadRecord => "bad record",
            Refusal::NoSuchIndex => "no such index",
            Refusal::AlreadyFree => "already free",
            Refusal::BadEntry => "bad entry",
            Refusal::BadBlock => "bad block",
            Refusal::NotAccepted => "not accepted",
        })
    }
}
