//! A lock with one history: the entries of the value under the lock, each with an owner.
//!
//! A [`Pass`] is the right to take turns at the lock. It knows a beginning of the history, which only grows, and which
//! of the entries in it are its own. Passes are split from one another, and joined again; where all are joined into one,
//! that one can close the lock, and every entry is known to be of this pass or of one that was joined into it.
#![tactic(auto)]

mod bells;
mod grows;
mod lock;
mod lock_fault;
mod pass;
mod rule;
mod turn;

pub use grows::Grows;
pub use lock::FrontLock;
pub use lock_fault::LockFault;
pub use pass::Pass;
pub use rule::{Contents, FrontView, Joined, Stage};
pub use turn::{Inner, Turn};
