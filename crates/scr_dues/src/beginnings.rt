//! The beginning of a turn before it is a step: a step has room for any command, and is kept in a box (our own).
ghost use Rattle.scr_dues.specs.Beginnings.{step_of};
ghost use Rattle.std.specs.Prelude.{◌≡◌, IfOk};

use callback_orders::Callback;
use component_state::Choice;
use prop_map::{List, OutOfMemory};
use scr_world::Step;
use std::alloc::{AllocError, Global};

/// The beginning of a turn.
#[derive(Drop)]
pub(crate) struct Beginning {
    /// The number of the turn.
    pub turn: u64,
    /// The number of the instance.
    pub instance: u64,
    /// The number of its component configuration.
    pub configuration: u64,
    /// The number of the bundle that it is made for, 0 where it is for all.
    pub consumer: u64,
    /// What it is told.
    pub callback: Callback,
    /// At a Create what it chooses for each static reference, else nothing.
    pub chosen: List<Choice>,
}

fn step_of(beginning: Beginning) -> Step
    ensures { result ≡ step_of beginning }
{
    let Beginning {
        turn,
        instance,
        configuration,
        consumer,
        callback,
        chosen,
    } = beginning;
    Step::Begin {
        turn,
        instance,
        configuration,
        consumer,
        callback,
        chosen,
    }
}

/// The step that begins so.
///
/// # Errors
/// Only want of memory.
pub(crate) fn boxed(alloc: Global, beginning: Beginning) -> Result<Box<Step>, OutOfMemory>
    ensures { IfOk result (λ step. step.value ≡ step_of beginning) }
{
    match Box::new(alloc, step_of(beginning)) {
        Ok(step) => Ok(step),
        Err(_) => Err(AllocError),
    }
}
