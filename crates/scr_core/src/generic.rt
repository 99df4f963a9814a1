//! What is done to a value whatever its type is: to let it go, or to put it into a box. In functions of their own, so that
//! no other has to know all parts of a step or of a draft to let one go.
ghost use Rattle.std.specs.Prelude.{◌≡◌, IfOk};

use prop_map::OutOfMemory;
use std::alloc::{AllocError, Global};

/// Lets a value go.
pub(crate) fn let_go<T: Drop>(_value: T) {}

/// The value in a box.
///
/// # Errors
/// Only want of memory. The value is dropped.
pub(crate) fn in_box<T: Drop>(alloc: Global, value: T) -> Result<Box<T>, OutOfMemory>
    ensures { IfOk result (λ b. b.value ≡ value) }
{
    match Box::new(alloc, value) {
        Ok(value) => Ok(value),
        Err(_) => Err(AllocError),
    }
}
