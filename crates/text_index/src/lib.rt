//! Texts that are found by halving: what may be as long as a line is never hashed, since its texts come from strangers.
#![tactic(auto)]

mod text_set;

pub use text_set::TextSet;
