//! The journal: what happened on a platform, entry by entry, within a limit.
#![tactic(auto)]

mod entry;
mod journal;
mod journal_fault;

pub use entry::{Entry, GateKey, Opened};
pub use journal::Journal;
pub use journal_fault::JournalFault;
