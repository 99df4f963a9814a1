//! The words that every crate of the platform shares: texts and lists that contracts see as their bytes and their
//! items, and the words of a component's references.
#![tactic(auto)]

mod copies;
mod json_properties;
mod key;
mod list;
mod memory;
mod numbers;
mod prop_fault;
mod properties;
mod reference_words;
mod shared;
mod spellings;
mod tables;
mod text;
mod value;

pub use copies::Copies;
pub use list::List;
pub use memory::OutOfMemory;
pub use numbers::has;
pub use prop_fault::PropFault;
pub use properties::{Properties, Property};
pub use reference_words::{Cardinality, Policy, PolicyOption};
pub use shared::Shared;
pub use tables::note_changed_in_place;
pub use text::Str;
pub use value::Value;
