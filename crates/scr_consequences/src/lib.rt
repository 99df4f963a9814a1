//! What follows from a step of the journal, as code over borrowed worlds: what its pass stands on, the bundles that have stopped,
//! the gates that are shut, the gets that stand, and what listeners are told.
#![tactic(auto)]

mod change_events;
mod completed_stops;
mod component_changes;
mod direct_changes;
mod failures;
mod gates;
mod gets;
mod held_services;
mod left_services;
mod moved_periods;
mod moved_rows;
mod pass_places;
mod passes;
mod platform_services;
mod registered;
mod reopened;
mod sorted_numbers;
mod stopped_bundles;
mod telling;

pub use completed_stops::{complete_stops, note_bundles, note_stops};
pub use failures::{ending_in, failing_of, failures_of};
pub use gates::{draining_in, shut_since};
pub use gets::{StandingGets, gets_left};
pub use held_services::{holds, is_service_held};
pub use left_services::{left_between, unregistered_held_between};
pub use passes::pass_in;
pub use platform_services::{condition, direct_services};
pub use reopened::{next_generation, opens_gate, reopened_by};
pub use stopped_bundles::{keeps_bundle, stopped_in};
pub use telling::{note_listeners, tell_changes};
