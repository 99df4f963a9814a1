//! The one way in which a journal grows: an entry at its end, and the state after it, or neither.
#![tactic(auto)]

mod entering;
mod generic;
mod growth;
mod listener_change;
mod listening;
mod passing;
mod settling;
mod told;
mod undone;
mod unseen;

pub use growth::grow;
