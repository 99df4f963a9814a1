//! Filters over properties (OSGi Core 8, section 3.2.7 "Filter Syntax").
#![tactic(auto)]

mod comparison;
mod filter;
mod filter_fault;
mod matching;
mod mode;
mod node;
mod parsing;
mod reader;
mod sameness;
mod steps;

pub use comparison::Comparison;
pub use filter::Filter;
pub use filter_fault::FilterFault;
pub use matching::{consists_of, value_compares, value_has_parts};
pub use node::Node;
pub use parsing::note_reading;
pub use steps::Steps;
