//! What is said of a command before it comes: what it makes of the component configurations and of what hangs on them, why
//! it is refused, what it answers, and its draft (OSGi Compendium 8, chapter 112, "Component Configuration").
#![tactic(auto)]

mod after;
mod asked;
mod bundle_states;
mod changing;
mod counted;
mod drafting;
mod full;
mod judgement;
mod lasting;
mod numbering;
mod open_and_failed;
mod room;
mod tables_after;

pub use asked::Asked;
pub use bundle_states::{bundle_views, bundle_views_with};
pub use changing::{change, change_asking, change_freely};
pub use counted::counted_components;
pub use drafting::{TablesAfter, command_draft};
pub use full::are_too_many;
pub use judgement::Judgement;
pub use lasting::{draft_as_before, draft_with};
pub use numbering::next_bundle;
pub use open_and_failed::{failed_by_command, periods_with_command};
pub use room::has_room_for_command;
pub use tables_after::asked_with;
