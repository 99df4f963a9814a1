//! Laws of all legal journals and of their worlds, of the numbers, slots and gates that journals give, of the tables, of
//! gets by token, and of the entries that may follow: each is a clause of a function that does nothing.
#![tactic(auto)]

mod answers;
mod asked;
mod bundle_events;
mod callbacks;
mod entries;
mod following;
mod gate_keys;
mod gates;
mod journals;
mod keys;
mod limits;
mod numbers;
mod open;
mod owners;
mod reserving;
mod services;
mod slots;
mod stopping;
mod tokens;

pub use answers::note_answers;
pub use asked::{
    note_asking_leaves, note_asking_twice, note_entry_keeps_asked, note_legal_is_asked,
};
pub use bundle_events::note_bundle_events;
pub use callbacks::{note_callbacks, note_living};
pub use entries::{
    note_follows_passes, note_legal_is_behind, note_legal_is_calm, note_legal_still,
    note_opens_first, note_waiting,
};
pub use following::{note_follows, note_one_entry, note_satisfied, note_some_entry};
pub use gate_keys::note_gate_keys;
pub use gates::{note_generations, note_nothing_shut};
pub use journals::{note_failed, note_ready, note_same_steps, note_sound};
pub use keys::note_keys;
pub use limits::note_limits;
pub use numbers::{note_few_numbers, note_numbers};
pub use open::{note_legal, note_open, note_opens, note_scratch};
pub use owners::{note_owners, note_stop};
pub use reserving::{note_gets_stand, note_reserved_by_entries};
pub use services::note_services;
pub use slots::{note_created, note_slots};
pub use stopping::note_stopping;
pub use tokens::note_tokens;
