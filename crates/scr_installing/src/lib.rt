//! What is said of the commands that install, update and uninstall a bundle before they come: why one is refused, what it
//! answers, and what it makes of the state (OSGi Core 8, chapter 4 "Life Cycle Layer").
#![tactic(auto)]

mod described;
mod documents;
mod drafting;
mod idle;
mod install;
mod names;
mod uninstall;
mod update;

pub use install::judge_install;
pub use uninstall::judge_uninstall;
pub use update::judge_update;
