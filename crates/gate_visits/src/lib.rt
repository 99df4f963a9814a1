//! Visits: calls that enter gates from a seat of their own, and the keys that they leave last.
//!
//! Whoever makes calls has a [`Visitor`]. Under the keeper's lock it hears how far each gate is. A call then enters
//! without the lock, under a key that it heard of, and leaves again. Where a gate was shut meanwhile the call is told so,
//! and where it leaves a shut gate last it is told the key, which the keeper has to be told in turn.
#![tactic(auto)]

mod visitor;

pub use call_gate::{CallGate, Entered, Inside, Last};
pub use visitor::Visitor;
