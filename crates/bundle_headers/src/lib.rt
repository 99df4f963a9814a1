//! The headers of a bundle: a manifest's headers (OSGi Core 8, section 3.2 "Bundles", and the JAR file specification),
//! and the clauses of a header (OSGi Core 8, section 1.3.2 "General Syntax Definitions" and 3.2.4).
#![tactic(auto)]

mod blanks;
mod clause_reading;
mod clauses;
mod fault;
mod folding;
mod header;
mod headers;
mod line;
mod manifest;
mod pairs;

pub use blanks::text_without_blanks;
pub use clauses::{Clause, Clauses};
pub use fault::HeaderFault;
pub use manifest::Manifest;
