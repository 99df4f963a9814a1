//! What is said of a command for services: to register, change and unregister them, to get and release them, and to listen to
//! their events (OSGi Core 8, chapter 5, "Service Layer").
#![tactic(auto)]

mod active;
mod counted;
mod drafts;
mod getting;
mod listening;
mod ownership;
mod registered;
mod registering;
mod setting;
mod ungetting;
mod unlistening;
mod unregistering;

pub use getting::{judge_get, refusal_of_get};
pub use listening::judge_listen;
pub use registering::judge_register;
pub use setting::judge_set_properties;
pub use ungetting::judge_unget;
pub use unlistening::judge_unlisten;
pub use unregistering::judge_unregister;
