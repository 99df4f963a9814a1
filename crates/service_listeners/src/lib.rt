//! Listeners of service events (OSGi Core 8, chapter 5 "Service Layer", "Service Events"): each is told what happens to
//! the services that its filter matches.
#![tactic(auto)]

mod cutting;
mod kept;
mod listen_fault;
mod listener;
mod rows;
mod saved;
mod table;
mod telling;

pub use kept::KeptListeners;
pub use listen_fault::ListenFault;
pub use listener::{Listener, ServiceEvent};
pub use saved::Saved;
pub use table::Listeners;
