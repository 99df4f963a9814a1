//! Whom calls reach in legal journals, for contracts alone.
#![tactic(auto)]

mod laws;

pub use laws::note_callees;
