// Records of calls obeyed in order: one record, a batch, and the service.

#![tactic(auto)]

mod list;
mod service;

pub use list::{obey, run, turn};
pub use service::serve;
