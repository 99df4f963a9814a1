//! Bundle documents: a bundle as one JSON text, with its manifest and the descriptions of its components.
#![tactic(auto)]

mod document;
mod entries;
mod entries_by_end;
mod fault;
mod fields;
mod headers;
mod matching;
mod names;
mod reading;
mod shared_texts;
mod text_list;
mod texts;

pub use document::BundleDoc;
pub use fault::DocFault;
pub use reading::read_bundle;
pub use shared_texts::with_shared_texts;
pub use texts::{note_clauses, note_versions};
