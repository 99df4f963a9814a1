//! Whom a request reaches in a core, and what it is answered (OSGi Compendium 8, chapter 140, has the choice of a
//! servlet).
//!
//! [`Servlets`] are the routes with the services of the servlets, as the whiteboard's instance holds them, made at a
//! length of the journal. [`reach_of`] says whom a request reaches; whoever runs its call says by [`answer_by_end`] and
//! [`answer_by_nobody`] what it is answered.
#![tactic(auto)]

mod answers;
mod laws;
mod reaching;
mod servlets;

pub use answers::{answer_by_end, answer_by_nobody, servlet_text};
pub use laws::{note_active, note_chosen};
pub use reaching::{Reach, reach_of};
// The platform takes these of the core by way of this crate, since each library on a line of crates.txt costs the crates above.
pub use scr_core::{Core, Taken, Turn, UseNote};
pub use servlets::Servlets;
