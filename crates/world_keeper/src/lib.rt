//! Kept worlds: what is kept of a platform behind a trait, in memory or as rows of a database.
#![tactic(auto)]

mod again;
mod bundles;
mod change;
mod configurations;
mod database;
mod keep_fault;
mod keeper;
mod keeping;
mod kept;
mod lines;
mod memory_keeper;
mod shortening;
mod sqlite_keeper;
mod statements;

pub use change::Change;
pub use keep_fault::KeepFault;
pub use keeper::Keeper;
pub use kept::{Kept, KeptBundle, KeptConfiguration};
pub use memory_keeper::MemoryKeeper;
pub use sqlite_keeper::SqliteKeeper;
