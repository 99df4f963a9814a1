//! What the manifests of the installed bundles say of their needs and offers (OSGi Core 8, chapter 3 "Module Layer"), read
//! once: at a bundle's install and at its update.
#![tactic(auto)]

mod document_wirings;
mod kept_wirings;
mod wiring_changes;

pub use kept_wirings::{KeptWirings, wirings_of};
pub use wiring_changes::{WiringChange, wiring_change};
