//! What calls by gets and requests are answered in the worlds of a journal, each part at a length of it: definitions,
//! with their laws for contracts alone.
#![tactic(auto)]

mod call;
mod call_fault;
mod laws;

pub use call::{Called, HallAnswer};
pub use call_fault::CallFault;
pub use call_moves::NestedCall;
pub use laws::{note_evaluation, note_later_entries};
