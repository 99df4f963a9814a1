//! Pairs of texts.
ghost use Rattle.std.specs.Prelude.{◌≡◌, IfOk};

use prop_map::{Copies, List, OutOfMemory, Str};
use std::alloc::Global;

/// Equal pairs in memory of their own.
pub(crate) fn copied(
    alloc: Global,
    pairs: &List<(Str, Str)>,
) -> Result<List<(Str, Str)>, OutOfMemory>
    ensures { IfOk result (λ other. other ≡ pairs.now) }
{
    let items = pairs.as_slice();
    let mut copied = Vec::new(alloc);
    for item in items {
        copied.push((item.0.copy(alloc)?, item.1.copy(alloc)?))?;
    }
    Ok(List::of(copied))
}
