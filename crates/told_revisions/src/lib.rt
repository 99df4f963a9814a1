//! What an instance was told last of each service, by reference.
#![tactic(auto)]

mod latest;
mod services;
mod tellings;
mod told_revisions;

pub use tellings::ToldRevision;
pub use told_revisions::ToldRevisions;
