//! A request to an instance is run to its end, with its nested calls: component code answers, or asks a nested call and
//! goes on with its reply. Whom nested calls reach, and the objects of instances, come from a [`Callees`].
#![tactic(auto)]

mod advance;
mod asking;
mod beginning;
mod callees;
mod calls;
mod ending;
mod run;

pub use callees::{Callee, Callees, Party};
pub use run::{CallEnd, End, run_call};
