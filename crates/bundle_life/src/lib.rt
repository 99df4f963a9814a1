//! The lives of bundles (OSGi Core 8, chapter 4 "Life Cycle Layer"): their states, their events, and when a step of a
//! bundle is refused.
#![tactic(auto)]

mod bundle;
mod events;
mod kept;
mod life_fault;
mod rows;
mod saved;
mod table;

pub use bundle::{BundleEvent, BundleLife, BundleState};
pub use kept::KeptBundle;
pub use life_fault::LifeFault;
pub use saved::Saved;
pub use table::{Bundles, Installed};
