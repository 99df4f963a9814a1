//! What is said of the commands that start and stop a bundle and that enable and disable a component, before they come.
#![tactic(auto)]

mod contents_after;
mod enabled_flags;
mod enabling;
mod keeping_instances;
mod known_components;
mod remaining_services;
mod starting;
mod stopping;

pub use enabling::{judge_disable, judge_enable};
pub use starting::judge_start;
pub use stopping::judge_stop;
