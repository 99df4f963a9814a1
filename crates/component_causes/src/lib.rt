//! What keeps a component configuration from being satisfied, and how one stands that is (OSGi Compendium 8, chapter 112,
//! "Satisfied"): types alone, for those that find it and those that print it.
#![tactic(auto)]

mod cause;
mod head;

pub use cause::{Cause, ReferenceCause, TargetInEffect};
pub use head::{ComponentHead, Standing};
