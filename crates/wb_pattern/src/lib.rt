//! Patterns of servlets, and how well each fits what is left of a request's path (OSGi Compendium 8, section 140.4; Java
//! Servlet 3.1, chapter 12). Nothing here takes memory.
#![tactic(auto)]

mod best_place;
mod fitting;
mod pattern;

pub use best_place::Place;
pub use fitting::{is_at_or_below, place};
pub use pattern::{BadPattern, Pattern};
