//! Which bundles resolve together, and to whom each is wired (OSGi Core 8, chapter 3 "Module Layer"): what a manifest says
//! of its bundle's needs and offers, the greatest set of bundles whose needs are met within it, and their wires.
#![tactic(auto)]

mod by_need;
mod capabilities;
mod clauses;
mod fault;
mod imports;
mod laws;
mod matching;
mod offer_table;
mod offers;
mod packages;
mod placed_offers;
mod reading;
mod resolved;
mod resolving;
mod standings;
mod texts;
mod version_list;
mod version_text;
mod wires;
mod wiring;

pub use by_need::{WiredNeed, wire_needs};
pub use fault::WireFault;
pub use laws::{note_missing_need, note_one_resolution, note_one_set, note_wired_to};
pub use matching::matches_versioned;
pub use reading::read_wiring;
pub use resolved::{Resolved, Wire};
pub use resolving::resolve;
pub use texts::note_texts;
pub use wires::note_best;
pub use wiring::{Offer, WireNeed, Wiring};
