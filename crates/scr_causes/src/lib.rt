//! What keeps a component configuration from being satisfied, and how one stands that is, read off a platform's world (OSGi
//! Compendium 8, chapter 112, "Satisfied").
#![tactic(auto)]

mod causes;
mod failed;
mod heads;
mod laws;
mod open_numbers;
mod pid_causes;
mod possible;
mod reference_causes;
mod service_table;
mod standings;
mod targets_in_effect;
mod wanted;

pub use causes::{CauseTables, causes_by, direct_causes};
pub use heads::{component_head, head_by};
pub use laws::note_direct_causes;
pub use possible::possible_services;
pub use service_table::ServiceTable;
