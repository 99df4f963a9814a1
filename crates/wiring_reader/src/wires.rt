//! The lines of wires.
ghost use Rattle.bundle_wiring.specs.ByNeed.{wired_of};
ghost use Rattle.std.specs.Prelude.{◌≡◌, ◌++◌, map, OnOk};
ghost use Rattle.wiring_reader.specs.Lines.{resolved_wires, wire_line_of, wire_lines_of};

use crate::WiringLine;
use crate::missing::missing;
use crate::parts::Head;
use bundle_wiring::WiredNeed;
use prop_map::{Copies, OutOfMemory};
use std::alloc::Global;

/// Adds a line for each wire of a bundle that misses no need.
///
/// # Errors
/// Only want of memory.
pub(crate) fn push_resolved(
    alloc: Global,
    lines: &mut Vec<WiringLine>,
    head: Head,
    needs: &[WiredNeed],
) -> Result<(), OutOfMemory>
    ensures { OnOk result (lines.new.items ≡ lines.old.items ++ resolved_wires head (map wired_of needs.now)) }
{
    if missing(needs).is_some() {
        return Ok(());
    }
    push_wires(alloc, lines, head.bundle, needs)
}

fn push_wires(
    alloc: Global,
    lines: &mut Vec<WiringLine>,
    bundle: u64,
    needs: &[WiredNeed],
) -> Result<(), OutOfMemory>
    ensures { OnOk result (lines.new.items ≡ lines.old.items ++ wire_lines_of bundle (map wired_of needs.now)) }
{
    for wired in needs {
        push_wire(alloc, lines, bundle, wired)?;
    }
    Ok(())
}

fn push_wire(
    alloc: Global,
    lines: &mut Vec<WiringLine>,
    bundle: u64,
    wired: &WiredNeed,
) -> Result<(), OutOfMemory>
    ensures { OnOk result (lines.new.items ≡ lines.old.items ++ wire_line_of bundle (wired_of wired.now)) }
{
    if let Some(to) = wired.to {
        let need = wired.need.name.copy(alloc)?;
        lines.push(WiringLine::Wire { bundle, need, to })?;
    }
    Ok(())
}
