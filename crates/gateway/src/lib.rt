//! The component code of a gateway, to be copied: two sensors, an aggregator, a store and a page.
//!
//! [`Gateway`] is what `Platform::new` takes. `docs/CONTRIBUTING.md` says under "Write a component" what each call is
//! for, and `crates/gateway_run` is its program, with documents and a script.
#![tactic(auto)]

mod classes;
mod component_code;
mod refusals;
mod requests;

pub use component_code::Gateway;
pub use requests::Waiting;
