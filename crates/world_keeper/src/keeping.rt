//! What changes keep.
ghost use Rattle.std.specs.Prelude.{◌≡◌, IfOk};
ghost use Rattle.world_keeper.specs.KeptWorlds.{kept_by};

use crate::bundles::change_bundles;
use crate::configurations::change_configurations;
use crate::{Change, Kept};
use prop_map::{List, OutOfMemory};
use std::alloc::Global;

/// What is kept after these changes of an empty platform.
pub(crate) fn kept_of(alloc: Global, changes: &[Change]) -> Result<Kept, OutOfMemory>
    ensures { IfOk result (λ kept. kept ≡ kept_by changes.now) }
{
    let mut bundles = Vec::new(alloc);
    let mut configurations = Vec::new(alloc);
    for change in changes {
        change_bundles(alloc, &mut bundles, change)?;
        change_configurations(alloc, &mut configurations, change)?;
    }
    Ok(Kept {
        bundles: List::of(bundles),
        configurations: List::of(configurations),
    })
}
