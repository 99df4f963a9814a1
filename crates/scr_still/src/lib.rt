//! Entries without consequences: the journal grows by one without a pass, and hardly anything settles.
#![tactic(auto)]

mod callbacks;
mod ends;
mod generic;
mod growth;
mod leavings;
mod still_ends;

pub use ends::grow_still_end;
pub use growth::grow_still;
pub use still_ends::is_still_end;
