//! What lies under the lock of a hall: the core with the owner of each entry, the tokens of the turns under way, the
//! object and the site of each living instance that was made, the gets by token that weren't given back, and the keeper of
//! the instances' gates.
//!
//! A [`Locked`] is changed in stretches at the lock alone. Each change says which entries it appends, and under which
//! owner, the number of the pass that made it; and the turns and the gets that other passes have are as they were.
#![tactic(auto)]

mod gets;
mod locked;
mod moving;
mod owed;
mod owned_core;
mod owners;
mod part;
mod parts;
mod refusals;
mod room;
mod sending;
mod turns;

pub use locked::Locked;
pub use owed::Owed;
pub use part::Part;
pub use scr_core::{Core, UseNote};
pub use sending::locked_is_send;
