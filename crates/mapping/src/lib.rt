// A mapping word is a type of its own, and answers for itself. A legal entry is an address at which a thread may start.

#![tactic(auto)]

ghost use Rattle.std.specs.Prelude.{◌≡◌};
ghost use Rattle.mapping.specs.Mapping.{index_of, slot_of, rights_of, address_of, writes, executes, well_formed};
ghost use Rattle.mapping.specs.Entry.{legal_entry};

#[derive(Clone, Copy)]
pub struct Mapping(pub u32);

// The bytes of a word, of a page, and of what one table maps.
pub const WORD_BYTES: u32 = 4;

pub const PAGE_BYTES: u32 = 4096;

pub const TABLE_BYTES: u32 = 4194304;

// The tables that a first-level page can name, and the slots of a table.
pub const MOST_TABLES: u32 = 256;

pub const SLOTS: u32 = 1024;

// Addresses, and the pages that they name, lie below these.
pub const ADDRESS_END: u32 = 1073741824;

const ADDRESS_PAGES: u32 = 262144;

// The rights: write, execute; all lie below the last.
const WRITE: u32 = 2;

pub const EXECUTE: u32 = 4;

pub const RIGHTS_END: u32 = 8;

// Bits 3-11 above the rights.
const UNUSED: u32 = 512;

impl Mapping {
    pub fn index(self) -> u32
        ensures { result ≡ index_of self.0 }
    {
        self.0 / TABLE_BYTES % MOST_TABLES
    }

    pub fn slot(self) -> u32
        ensures { result ≡ slot_of self.0 }
    {
        self.0 / PAGE_BYTES % SLOTS
    }

    pub fn rights(self) -> u32
        ensures { result ≡ rights_of self.0 }
    {
        self.0 % RIGHTS_END
    }

    pub fn address(self) -> u32
        ensures { result ≡ address_of self.0 }
    {
        self.0 / PAGE_BYTES % ADDRESS_PAGES * PAGE_BYTES
    }

    pub fn writes(self) -> bool
        ensures { result ≡ writes self.0 }
    {
        self.0 / WRITE % 2 == 1
    }

    pub fn executes(self) -> bool
        ensures { result ≡ executes self.0 }
    {
        self.0 / EXECUTE % 2 == 1
    }

    #[tactic(auto, unfolding(crate::specs::Mapping::well_formed))]
    pub fn well_formed(self) -> bool
        ensures { result ≡ well_formed self.0 }
    {
        if self.0 % 2 != 1 {
            return false;
        }
        if self.0 / RIGHTS_END % UNUSED != 0 {
            return false;
        }
        self.0 < ADDRESS_END
    }
}

// Is it a multiple of 4 below 2^30?
#[tactic(auto, unfolding(crate::specs::Entry::legal_entry))]
pub fn legal_entry(entry: u32) -> bool
    ensures { result ≡ legal_entry entry }
{
    if entry % WORD_BYTES != 0 {
        return false;
    }
    entry < ADDRESS_END
}
