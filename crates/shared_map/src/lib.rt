//! A map by text whose copies are cheap, because what it holds is shared between copies.
#![tactic(auto)]

mod merging;
mod parts;
mod rows;
mod shared_map;

pub use rows::Row;
pub use shared_map::SharedMap;
