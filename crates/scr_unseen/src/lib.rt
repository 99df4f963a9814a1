//! Commands that no component tells apart: which they are, and what holds of them in every legal journal (that law is a
//! clause of a function that does nothing).
#![tactic(auto)]

mod commands;
mod needs;
mod unseen;

pub use commands::is_unseen;
pub use unseen::note_unseen;
