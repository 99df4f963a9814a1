//! The report of a component configuration as JSON (OSGi Compendium 8, chapter 112, "ComponentConfigurationDTO").
#![tactic(auto)]

mod core_details;
mod core_reports;
mod details;
mod lists;
mod property_texts;
mod property_values;
mod reference_details;
mod reference_values;
mod report_fault;
mod reports;

pub use core_details::details_text;
pub use core_reports::{report, report_text};
pub use details::details_text_of;
pub use property_texts::properties_text;
pub use report_fault::ReportFault;
pub use reports::{report_of, report_text_of};
pub use scr_core::Core;
