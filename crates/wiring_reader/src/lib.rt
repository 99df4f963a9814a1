//! What a platform tells of the wiring of its bundles (OSGi Core 8, chapter 3 "Module Layer"): which of the installed
//! bundles resolve together by the packages and capabilities of their manifests, and to whom each is wired. That a
//! bundle is started doesn't depend on it.
#![tactic(auto)]

mod bundle_lines;
mod laws;
mod lines;
mod missing;
mod parts;
mod wires;
mod wiring_line;

pub use bundle_lines::{bundle_wiring, kept_bundle_wiring};
pub use laws::{note_one_bundle_wiring, note_one_wiring, note_resolved};
pub use lines::{kept_wiring_lines, wiring_lines};
pub use wiring_line::{NeedLine, WiringLine};
