//! The services of the platform: their rows, which of two is better, and the table that registers, changes and
//! unregisters them (OSGi Core 8, section 5.2).
#![tactic(auto)]

mod best_first;
mod fault;
mod interfaces;
mod new_rows;
mod places;
mod registry;
mod row;
mod saved;
mod search;
mod service_properties;
mod service_rank;

pub use best_first::{Ranked, numbers_best_first, sort_best_first};
pub use fault::RegistryFault;
pub use interfaces::Interfaces;
pub use registry::Registry;
pub use row::{HasRow, ServiceRow};
pub use saved::Saved;
pub use search::has_interface;
pub use service_properties::with_service_properties;
pub use service_rank::{better, ranked, ranking};
