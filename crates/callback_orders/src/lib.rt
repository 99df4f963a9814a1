//! The order of callbacks: how those of one instance follow each other, and which one is due.
#![tactic(auto)]

mod callback;
mod due;
mod instance_view;
mod lives;
mod references;
mod word;

pub use callback::{Callback, Outcome};
pub use due::{DueRef, due_of, first_due};
pub use instance_view::{HeldService, InstanceView, Key, Phase, ReferenceView, Wish};
pub use lives::{held_for, is_held, is_living, is_outstanding, phase_of};
pub use word::{Called, Word};
