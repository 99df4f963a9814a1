//! What is due in a world: the first due callback, the turn that begins next, the work of a turn under way, the next drain, and
//! room in the journal (OSGi Compendium 8, chapter 112, "Component Life Cycle"; turns, drains and room are our own). Beside these
//! the state of a component configuration.
#![tactic(auto)]

mod beginnings;
mod begins;
mod changes;
mod component_states;
mod components;
mod desires;
mod desiring;
mod due_in_making;
mod dues;
mod following;
mod known_needs;
mod lean_views;
mod making;
mod own_names;
mod own_rows;
mod readiness;
mod room;
mod services;
mod turns;
mod views;
mod wanted;

pub use begins::{choices, instance_of, next_begin, next_begin_from};
pub use changes::{awaits_modified, is_changed};
pub use component_states::state_of;
pub use components::{component_in, references_in};
pub use desires::{desired_for, targets};
pub use dues::{due_in, due_of_instance, due_of_whiteboard, is_idle};
pub use making::Making;
pub use own_rows::OwnRows;
pub use readiness::{bundle_of_instance, has_holder, holds, is_ready, serves};
pub use room::{has_room, needed_by, reserved};
pub use services::{is_registered, ranking_of, revision_of, row_known, sorted};
pub use turns::{awaits_drain, class_in, is_under_way, next_drain, work_under_way};
pub use views::view_of;
pub use wanted::missing;
