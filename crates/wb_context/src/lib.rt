//! The contexts of the whiteboard: which services are contexts, which of one name counts, and in what order a request's
//! path is looked up in them (OSGi Compendium 8, section 140.2).
#![tactic(auto)]

mod context;
mod context_fault;
mod context_forms;
mod context_order;
mod context_paths;

pub use context::{Context, read_context};
pub use context_fault::ContextFault;
pub use context_order::{contexts_in_order, in_order};
pub use context_paths::{covers, rest_in};
