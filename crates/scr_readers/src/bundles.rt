//! Bundles and their events (OSGi Core 8, chapter 4, "Bundle State" and "Bundle Events").
ghost use Rattle.scr_world.specs.Readers.{bundle_events_after, bundle_line, bundle_lines};
ghost use Rattle.std.specs.Prelude.{◌≡◌, IfOk, map};

use bundle_life::{BundleEvent, BundleLife};
use prop_map::{Copies, List, OutOfMemory};
use scr_world::{BundleLine, World};
use std::alloc::Global;

/// The installed bundles with their states, by number.
///
/// # Errors
/// Only want of memory.
pub fn bundle_lines(alloc: Global, world: &World) -> Result<List<BundleLine>, OutOfMemory>
    ensures { IfOk result (λ lines. lines ≡ bundle_lines world.now) }
{
    lines_of(alloc, world.bundles.rows())
}

/// What happened to bundles behind the first `position` events; nothing where there are no more. It takes no memory.
pub fn bundle_events_after(world: &World, position: u64) -> &[BundleEvent]
    ensures { result.now ≡ bundle_events_after position world.now }
{
    world.bundles.events(position)
}

fn lines_of(alloc: Global, rows: &[BundleLife]) -> Result<List<BundleLine>, OutOfMemory>
    ensures { IfOk result (λ lines. lines ≡ map bundle_line rows.now) }
{
    let mut lines = Vec::new(alloc);
    for row in rows {
        lines.push(line_of(alloc, row)?)?;
    }
    Ok(List::of(lines))
}

fn line_of(alloc: Global, row: &BundleLife) -> Result<BundleLine, OutOfMemory>
    ensures { IfOk result (λ line. line ≡ bundle_line row.now) }
{
    Ok(BundleLine {
        bundle: row.number,
        state: row.state.number(),
        name: row.name.copy(alloc)?,
        version: row.version.copy(alloc)?,
    })
}
