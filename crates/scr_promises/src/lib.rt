//! What a user of the core may rely on, in every legal journal: when instances end, what they chose and hold and who
//! provides it, that a platform at rest is right, how one settles, that none is stuck, and what is so of events, gets,
//! reserved entries, slots, the whiteboard and configurations. Each is a clause of a function that does nothing.
#![tactic(auto)]

mod board;
mod choices;
mod counts;
mod endings;
mod events;
mod gets;
mod going_on;
mod holdings;
mod minimum;
mod nothing_closes;
mod reserves;
mod rest;
mod services;
mod settle_bound;
mod slots;

pub use board::{note_board_rows, note_board_stays};
pub use choices::{note_choices_stand, note_static_services};
pub use counts::note_counts;
pub use endings::{note_endings, note_goes_on_ending};
pub use events::note_events;
pub use gets::note_gets;
pub use going_on::note_no_legal_journal_is_stuck;
pub use holdings::{note_held_services, note_providers};
pub use minimum::note_minimum;
pub use nothing_closes::note_nothing_closes;
pub use reserves::note_reserved;
pub use rest::note_quiet_is_right;
pub use services::{note_service_numbers, note_services_stay};
pub use settle_bound::note_settles_within_bound;
pub use slots::{note_active, note_levels};
