//! Descriptions of components, read from JSON (OSGi Compendium 8, chapter 112: `ComponentDescriptionDTO`, `ReferenceDTO`).
#![tactic(auto)]

mod configuration_pids;
mod description;
mod fault;
mod fields;
mod given_fields;
mod reading;
mod references;
mod rules;
mod targets;
mod text_lists;
mod words;

pub use description::{ConfigurationPolicy, Description, Reference, Scope};
pub use fault::DescriptionFault;
pub use fields::given;
pub use reading::read_description;
pub use text_lists::{each_once, first_repeated};
