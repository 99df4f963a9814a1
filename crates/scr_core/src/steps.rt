//! Steps in boxes: a step has room for any command.
ghost use Rattle.std.specs.Prelude.{◌≡◌, IfOk};

use crate::generic::in_box;
use prop_map::OutOfMemory;
use scr_world::Step;
use std::alloc::Global;

/// The step in a box.
///
/// # Errors
/// Only want of memory. The step is dropped.
pub(crate) fn boxed(alloc: Global, step: Step) -> Result<Box<Step>, OutOfMemory>
    ensures { IfOk result (λ b. b.value ≡ step) }
{
    in_box(alloc, step)
}
