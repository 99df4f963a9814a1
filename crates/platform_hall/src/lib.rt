//! The platform of one thread: the core, the component code that its turns tell, and the objects of the instances.
//!
//! A [`Platform`] takes commands, runs the turns that are due, calls services, and posts the drains of gates that are
//! shut: nobody is inside of one then, since one thread makes one call at a time.
#![tactic(auto)]

mod call_answers;
mod call_desk;
mod call_faults;
mod callees;
mod calls;
mod core_desk;
mod drains;
mod endings;
mod finish_fault;
mod heard;
mod held;
mod http_answers;
mod kept;
mod notes;
mod platform;
mod requests;
mod tokens;

pub use finish_fault::FinishFault;
pub use notes::{note_rest, note_settle_bound, note_turns_end};
pub use platform::Platform;
