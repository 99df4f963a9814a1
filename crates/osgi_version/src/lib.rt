//! Versions and version ranges (OSGi Core 8, section 3.2.5 "Version" and 3.2.6 "Version Ranges"): read from a text,
//! compared, and written as a text.
#![tactic(auto)]

mod fault;
mod qualifier;
mod range;
mod range_reading;
mod reading;
mod version;
mod version_reading;

pub use fault::VersionFault;
pub use qualifier::Qualifier;
pub use range::{Bound, VersionRange};
pub use version::{Version, canonical_text_is_read};
