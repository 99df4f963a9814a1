//! What a request to an instance comes to, move by move, for contracts alone: component code answers, or it asks a
//! nested call and goes on with its reply.
//!
//! A nested call is decided at a front of its own, a length of the journal. So what a call comes to is a function of
//! the fronts, and lengths that come later don't matter to what was decided. Whom a nested call reaches is a parameter
//! here.
#![tactic(auto)]

mod laws;
mod nested_call;

pub use laws::{note_further_fronts, note_moves, note_other_worlds, note_recursion, note_steps};
pub use nested_call::NestedCall;
