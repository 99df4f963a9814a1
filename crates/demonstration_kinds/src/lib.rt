//! The component code of the demonstration.
#![tactic(auto)]

mod component_code;

pub use component_code::{Demonstration, Relay};
