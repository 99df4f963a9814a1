//! A kept world opened again: the commands that make an empty platform into what was kept.
#![tactic(auto)]

mod readings;
mod reopen_fault;
mod reopening;
mod rows;

pub use reopen_fault::ReopenFault;
pub use reopening::reopen_commands;
