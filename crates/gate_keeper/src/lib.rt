//! The keeper of gates: its seat, which opens and shuts them, and a shelf of the drains that wait to be posted.
//!
//! A slot has a level: four times its generation, and 0 where its gate is open, 1 where it is shut, 3 where it is
//! closed. Whoever keeps a table of what the level of each slot should be calls the keeper for each change of it. The
//! keeper's own level of each slot is then as that table has it, or closed where the slot's drain is on the shelf. A
//! drain gets there in the step after which nobody is inside a shut gate, and needs no memory for it.
//!
//! Who is inside a gate can't be known to its keeper, since callers come and go by steps of their own. What it knows is
//! which keys were visited: where a key wasn't, its drain is on the shelf as soon as the gate is shut.
#![tactic(auto)]

mod keeper;
mod laws;
mod shutting;

pub use keeper::Keeper;
pub use laws::{
    note_can_reopen, note_can_shut, note_first, note_known, note_nobody, note_none_shut,
    note_reopened, note_shelved, note_shut, note_shut_met, note_taken, note_told,
};
