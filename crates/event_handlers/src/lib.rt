//! Which services handle an event (OSGi Compendium 8, chapter 113, event handlers).
#![tactic(auto)]

mod admission;
mod handler;
mod handling;
mod kept_pattern;

pub use handling::{Handlers, handlers_of};
