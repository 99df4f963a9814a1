//! The callbacks of one instance, and beside them what they say of it.
#![tactic(auto)]

mod bound;
mod course;
mod holdings;
mod instance_callbacks;
mod services;

pub use instance_callbacks::InstanceCallbacks;
