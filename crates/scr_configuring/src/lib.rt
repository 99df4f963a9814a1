//! What is said of the commands that set and delete configurations, before they come.
#![tactic(auto)]

mod config_refusals;
mod configuring;
mod configuring_factories;
mod unconfiguring;

pub use configuring::judge_configure;
pub use configuring_factories::judge_configure_factory;
pub use unconfiguring::judge_unconfigure;
