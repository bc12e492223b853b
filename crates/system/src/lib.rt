// Calls 1 and 9-13, asked by the untrusted system: running an enclave that is built, taking it down.

#![tactic(auto)]

mod reclaiming;
mod running;

pub use reclaiming::{free_pages, get_phys_pages, remove, stop};
pub use running::{enter_thread, resume};
