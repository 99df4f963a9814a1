//! What the journal of a platform says: the types of commands, steps, replies and of the world, and all definitions of the journal.
//! There is no other code here than what an instance tells of itself.
#![tactic(auto)]

mod command;
mod contents;
mod endings;
mod instance;
mod last_callbacks;
mod lines;
mod marks;
mod reply;
mod step;
mod tokens;
mod turn;
mod world;

pub use command::{Command, Limits};
pub use contents::Contents;
pub use endings::{ends, is_active_bundle, is_ending};
pub use instance::{Instance, is_failed};
pub use last_callbacks::{last_callback, last_is_activate, last_is_create, last_is_destroy};
pub use lines::{BundleLine, ComponentLine, HeldLine, TurnLine};
pub use marks::{Failure, Token};
pub use reply::{Accepted, CoreFault, Reply};
pub use step::Step;
pub use tokens::has_token;
pub use turn::Ended;
pub use world::World;
