//! Gets of services (OSGi Core 8, chapter 5 "Service Layer", "Getting Services" and "Releasing Services"): how often each
//! bundle uses each service.
#![tactic(auto)]

mod changes;
mod counting;
mod kept;
mod rows;
mod saved;
mod table;
mod uses;

pub use kept::KeptUses;
pub use saved::Saved;
pub use table::UseCounts;
pub use uses::{Holder, NotUsing, UseRow};
