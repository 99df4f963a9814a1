//! The pass after an entry's step: what closes and what opens (OSGi Compendium 8, chapter 112, "Satisfied"; the order
//! is our own).
ghost use Rattle.component_state.specs.Inside.Ready.{IsReady};
ghost use Rattle.component_state.specs.Passes.{HasPassed};
ghost use Rattle.std.specs.Prelude.{◌≡◌, IfOk};

use crate::pass_order::pass_order;
use crate::pass_steps::{nothing_passed, pass_one};
use crate::{OpenPeriod, Stage};
use journal_core::Opened;
use prop_map::{List, OutOfMemory};
use std::alloc::Global;

/// What a pass closed and opened, and what is known after it.
#[derive(Debug, PartialEq, Eq, Drop)]
pub struct Passed {
    /// The component configurations that closed, by level, then by number.
    pub closed: List<u64>,
    /// Those that opened, by level, then by number, each with its service.
    pub opened: List<Opened>,
    /// What is open now, in the order of the openings.
    pub open_now: List<OpenPeriod>,
    /// The numbers of the satisfied component configurations, by level, then by number, those held back among them.
    pub satisfied: List<u64>,
    /// The number of the next service.
    pub next_service: u64,
}

/// The pass of an entry: it goes up the levels, closes what was open and has a reason to close, and opens what is
/// satisfied, isn't held back and wasn't open. New services are numbered on. It changes nothing that it looks at.
///
/// # Errors
/// Only want of memory. That no number is left for a service counts as such.
pub fn pass_over(alloc: Global, stage: &Stage) -> Result<Passed, OutOfMemory>
    requires { IsReady stage.now }
    ensures { IfOk result (λ p. HasPassed stage.now p) }
{
    let ordered = pass_order(alloc, stage.descriptions, stage.levels, stage.components)?;
    let mut progress = nothing_passed(alloc, stage.next, stage.open_before)?;
    for &component in &ordered {
        pass_one(alloc, stage, component, &mut progress)?;
    }
    Ok(progress)
}
