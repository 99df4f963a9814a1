//! How a pass goes on in the one history of a front lock, for contracts alone.
//!
//! `Went` says what became of a pass between two moments: which entries it has seen meanwhile, and which of them are its own, at
//! which places. A turn at the lock is a going on, and goings on join: so a call that takes several turns, and a run of calls, say
//! what they appended in the same words as a single turn.
#![tactic(auto)]

mod goings;

pub use goings::{note_front_stays, note_goes_on, note_own_stand, note_stretch};
