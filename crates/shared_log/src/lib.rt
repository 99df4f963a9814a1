//! A list that grows at its end alone, and whose copies share what it holds.
#![tactic(auto)]

mod parts;
mod shared_log;

pub use shared_log::SharedLog;
