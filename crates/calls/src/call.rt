// The calls: their numbers and names, and how many arguments each has.

ghost use Rattle.std.specs.Prelude.{◌≡◌};
ghost use Rattle.answer.specs.declared.refusals.Refusal.TheVariants.{BadRecord};
ghost use Rattle.calls.specs.Acted.{call_number, arguments_of, Called};

use answer::Refusal;
use std::fmt;

// The system's calls, and from 32 on the enclave's.
#[derive(Clone, Copy, PartialEq, Eq)]
pub enum Call {
    GetPhysPages = 1,
    InitAddrSpace = 2,
    InitThread = 3,
    InitTable = 4,
    AllocSpare = 5,
    MapSecure = 6,
    MapInsecure = 7,
    Finalise = 8,
    Enter = 9,
    Resume = 10,
    Stop = 11,
    Remove = 12,
    FreePages = 13,
    GetRandom = 32,
    Attest = 33,
    Verify = 34,
    SpareTable = 35,
    MapData = 36,
    UnmapData = 37,
    Exit = 38,
    Interrupt = 39,
    Fault = 40,
    Load = 41,
    Store = 42,
}

// A number that no call has.
#[derive(Clone, Copy, PartialEq, Eq)]
pub struct NoCall(pub u32);

impl Call {
    pub fn number(self) -> u32
        ensures { result ≡ call_number self }
    {
        self as u32
    }

    // How many arguments the call has.
    #[tactic(auto, unfolding(crate::specs::Acted::arguments_of, crate::specs::Acted::found, crate::specs::Table::calls, crate::specs::Table::lookup))]
    pub fn arguments(self) -> u32
        ensures { result ≡ arguments_of self }
    {
        match self {
            Call::GetPhysPages => 0,
            Call::InitAddrSpace => 2,
            Call::InitThread => 3,
            Call::InitTable => 3,
            Call::AllocSpare => 2,
            Call::MapSecure => 4,
            Call::MapInsecure => 3,
            Call::Finalise => 1,
            Call::Enter => 4,
            Call::Resume => 1,
            Call::Stop => 1,
            Call::Remove => 1,
            Call::FreePages => 0,
            Call::GetRandom => 1,
            Call::Attest => 8,
            Call::Verify => 24,
            Call::SpareTable => 2,
            Call::MapData => 2,
            Call::UnmapData => 1,
            Call::Exit => 1,
            Call::Interrupt => 17,
            Call::Fault => 0,
            Call::Load => 1,
            Call::Store => 2,
        }
    }
}

impl TryFrom<u32> for Call {
    type Error = NoCall;

    ghost try_from_gives = { Called };

    fn try_from(word: u32) -> Result<Call, NoCall> {
        match word {
            1 => Ok(Call::GetPhysPages),
            2 => Ok(Call::InitAddrSpace),
            3 => Ok(Call::InitThread),
            4 => Ok(Call::InitTable),
            5 => Ok(Call::AllocSpare),
            6 => Ok(Call::MapSecure),
            7 => Ok(Call::MapInsecure),
            8 => Ok(Call::Finalise),
            9 => Ok(Call::Enter),
            10 => Ok(Call::Resume),
            11 => Ok(Call::Stop),
            12 => Ok(Call::Remove),
            13 => Ok(Call::FreePages),
            32 => Ok(Call::GetRandom),
            33 => Ok(Call::Attest),
            34 => Ok(Call::Verify),
            35 => Ok(Call::SpareTable),
            36 => Ok(Call::MapData),
            37 => Ok(Call::UnmapData),
            38 => Ok(Call::Exit),
            39 => Ok(Call::Interrupt),
            40 => Ok(Call::Fault),
            41 => Ok(Call::Load),
            42 => Ok(Call::Store),
            _ => Err(NoCall(word)),
        }
    }
}

impl From<NoCall> for Refusal {
    ghost from_gives = { λ _ e. e ≡ BadRecord };

    fn from(_no: NoCall) -> Refusal {
        Refusal::BadRecord
    }
}

impl fmt::Display for Call {
    fn fmt<W: fmt::Write>(&self, f: &mut fmt::Formatter<W>) -> fmt::Result {
        f.write_str(match self {
            Call::GetPhysPages => "GetPhysPages",
            Call::InitAddrSpace => "InitAddrSpace",
            Call::InitThread => "InitThread",
            Call::InitTable => "InitL2PTable",
            Call::AllocSpare => "AllocSpare",
            Call::MapSecure => "MapSecure",
            Call::MapInsecure => "MapInsecure",
            Call::Finalise => "Finalise",
            Call::Enter => "Enter",
            Call::Resume => "Resume",
            Call::Stop => "Stop",
            Call::Remove => "Remove",
            Call::FreePages => "FreePages",
            Call::GetRandom => "GetRandom",
            Call::Attest => "Attest",
            Call::Verify => "Verify",
            Call::SpareTable => "InitL2PTable",
            Call::MapData => "MapData",
            Call::UnmapData => "UnmapData",
            Call::Exit => "Exit",
            Call::Interrupt => "Interrupt",
            Call::Fault => "Fault",
            Call::Load => "Load",
            Call::Store => "Store",
        })
    }
}
