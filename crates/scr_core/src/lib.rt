//! The core of the platform: bundles, services, configurations, component configurations and their instances (OSGi Core 8, chapters
//! 4 and 5; OSGi Compendium 8, chapter 112).
//!
//! A [`Core`] takes commands and turns and keeps a journal of those that changed something. All that it answers follows from the
//! journal by the definitions of `scr_world`.
#![tactic(auto)]

mod call_readers;
mod calls;
mod commands;
mod drains;
mod empty;
mod generic;
mod listings;
mod platform_core;
mod readers;
mod refusals;
mod room;
mod sending;
mod steps;
mod turn;
mod turn_lines;
mod turns;
mod use_note;
mod uses;
mod wirings;

pub use platform_core::Core;
pub use scr_readers::{
    ComponentDetails, ComponentView, Inward, InwardAt, ListedComponent, Live, LiveAt, Outer,
    OuterAt, ReferenceDetails, ReferenceState, ServiceHolder, ServiceUse, ServiceView,
};
pub use scr_world::{
    Accepted, BundleLine, Command, ComponentLine, CoreFault, Ended, HeldLine, Limits, Reply, Step,
    TurnLine,
};
pub use sending::core_is_send;
pub use turn::{Taken, Turn};
pub use use_note::UseNote;
