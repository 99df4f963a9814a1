//! Configurations (OSGi Compendium 8, chapter 104 "Configuration Admin Service Specification"): the last word on each PID,
//! with those of factories.
#![tactic(auto)]

mod config_fault;
mod configuration;
mod overwritten;
mod pids;
mod refusals;
mod row_changes;
mod rows;
mod saved;
mod table;

pub use config_fault::ConfigFault;
pub use configuration::Configuration;
pub use overwritten::Overwritten;
pub use saved::Saved;
pub use table::Configurations;
