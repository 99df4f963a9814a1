//! What the steps of turns make of a state: the beginning of a turn and its end, a drain, a get by token and its release.
#![tactic(auto)]

mod begins;
mod both;
mod creations;
mod drafts;
mod ends;
mod failing;
mod gets;
mod instances;
mod numbers;
mod revisions;
mod slots;

pub use drafts::turn_draft;
