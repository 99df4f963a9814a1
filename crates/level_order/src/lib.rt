//! Levels of descriptions: a component stands above those that provide what it references.
#![tactic(auto)]

mod consuming;
mod fault;
mod heights;
mod interface_names;
mod least_levels;
mod least_path;
mod level_list;
mod links;
mod order;
mod ranks;
mod spread;
mod told_cycle;
mod turned;
mod ways;

pub use consuming::{consumes, provides};
pub use fault::LevelFault;
pub use least_levels::note_least;
pub use level_list::levels;
