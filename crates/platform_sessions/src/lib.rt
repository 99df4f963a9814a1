//! The platform that sessions share: a core under a lock with one history, and the component code.
//!
//! Each session has a pass of the hall. Each of its calls takes one turn at the lock, or several: in each it makes one
//! change, whose entry is its own, or looks. So each command stands once in the one journal, behind all that its
//! session had seen, and what a call answers is by the journal up to the front that it tells.
#![tactic(auto)]

mod closing;
mod commands;
mod hall;
mod hall_pass;
mod look;
mod passes;
mod reads;
mod sending;
mod tasks;
mod turns;
mod uses;
mod works;

pub use front_lock::LockFault;
pub use hall::Hall;
pub use hall_locked::Core;
pub use hall_pass::HallPass;
pub use look::Look;
pub use sending::{hall_is_sync, pass_is_send};
pub use uses::ServiceUse;
