// Words of the ledger, read and written in place. Reading outside the ledger gives 0 and writing outside it does nothing, as in the
// definitions, so hardly a function here asks anything of its caller.

#![tactic(auto)]

mod hash;
mod kinds;
mod map;
mod pages;
mod records;

pub use hash::{add_blocks, hash_words, key_words, put_hash};
pub use kinds::{NoType, PageType, State, is_state, is_type};
pub use map::{count_free, lowest_free};
pub use pages::{gain_page, lose_page, occupy_data, occupy_page, occupy_space, vacate_page};
pub use records::{
    header_word, mapping_word, renew, renew_data, set_running, store, store_words, word,
};

// ---- the header's words: who runs, the key

pub const RUNNING: usize = 0;

pub const KEY: usize = 1;

pub const KEY_WORDS: usize = 8;

// ---- a record's words: of every page,

pub const TYPE: u32 = 0;

pub const OWNER: u32 = 1;

// of an address space,

pub const FIRST_PAGE: u32 = 2;

pub const STATE: u32 = 3;

pub const COUNT: u32 = 4;

pub const BLOCKS: u32 = 5;

pub const HASH: u32 = 6;

pub const HASH_WORDS: usize = 8;

// of a thread,

pub const ENTRY: u32 = 2;

pub const SUSPENDED: u32 = 3;

pub const REGISTERS: usize = 4;

pub const FLAGS: u32 = 20;

// The lowest of the four flags that are kept; the words of a suspended thread: 1, its registers, its flags.
pub const FLAG: u32 = 268435456;

pub const SAVED_WORDS: usize = 18;

// of a table, and of a data page.

pub const INDEX: u32 = 2;

pub const MAPPING: u32 = 2;

// The first of the words that are zero in a record: of a space, of a thread, of a table or a data page, of a first-level or spare page, of a
// free page.

pub const SPACE_END: usize = 14;

pub const THREAD_END: usize = 21;

pub const NAMED_END: usize = 3;

pub const OWNED_END: usize = 2;

pub const FREE_END: usize = 1;

// What a data page adds to the blocks measured: one for its mapping, 64 for its words.
pub const DATA_BLOCKS: u32 = 65;
