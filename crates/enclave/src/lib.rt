// Calls 35-42, asked by the running enclave: its own pages, the end of its run, loads and stores.

#![tactic(auto)]

mod pages;
mod run;

pub use pages::{map_data, spare_table, unmap_data};
pub use run::{exit, fault, interrupt, load, store};
