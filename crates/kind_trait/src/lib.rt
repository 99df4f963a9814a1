//! Component code: what an instance is told and asked, and the calls that wait for each other.
#![tactic(auto)]

mod call_stack;
mod kind_fault;
mod kinds;
mod nested_reply;
mod next;

pub use call_stack::{CallStack, CallTooLong, Waiting};
pub use kind_fault::KindFault;
pub use kinds::Kinds;
pub use nested_reply::NestedReply;
pub use next::Next;
pub use turn_work::Site;
