//! What the references of a component configuration need, which services are their targets, and which they choose and
//! desire (OSGi Compendium 8, chapter 112).
#![tactic(auto)]

mod choice;
mod matching;
mod minimum;
mod minimum_property;
mod need;
mod needs;
mod target;
mod target_services;

pub use choice::{chosen, desired};
pub use matching::meets;
pub use minimum::{is_met, is_met_standing};
pub use need::Need;
pub use needs::{implicit_need, need_of, needs_with};
pub use target_services::{standing_targets, targets};
