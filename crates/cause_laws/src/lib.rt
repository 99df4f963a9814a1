//! What the causes that are told say in every legal journal. Each is a clause of a function that does nothing.
#![tactic(auto)]

mod causes;

pub use causes::note_causes;
