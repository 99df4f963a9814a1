//! The component configurations of a graph, each with what it holds and what it lacks (OSGi Compendium 8, chapter 112, "Bound
//! Services", "UnsatisfiedReferenceDTO").
ghost use Rattle.component_state.specs.Components.{exists};
ghost use Rattle.platform_hall.specs.Platforms.{world};
ghost use Rattle.scr_world.specs.Readers.{component_lines, held_lines};
ghost use Rattle.script_shell.specs.Graphs.{component_arrows, component_node, components_drawn, drawn, drawn_with, lack_arrows, reference_arrows};
ghost use Rattle.std.specs.Prelude.{◌≡◌, ◌++◌, IfOk, OnOk, flat_map, true};

use crate::graph_holds::add_holds;
use component_state::OpenPeriod;
use prop_map::{Copies, List, OutOfMemory};
use scr_readers::{ComponentDetails, ReferenceDetails};
use scr_report::Core;
use scr_world::{ComponentLine, CoreFault, HeldLine};
use shell_lang::GraphLine;
use std::alloc::{AllocError, Global};

// The component configurations that haven't ceased, by number.
pub(crate) fn add_components(
    alloc: Global,
    lines: &mut Vec<GraphLine>,
    core: &Core,
) -> Result<(), OutOfMemory>
    ensures { OnOk result (lines.new.items ≡ lines.old.items ++ components_drawn (world core.now) (component_lines (world core.now))) }
{
    let rows = core.component_rows(alloc)?;
    add_each(alloc, lines, core, rows.as_slice())?;
    Ok(())
}

fn add_each(
    alloc: Global,
    lines: &mut Vec<GraphLine>,
    core: &Core,
    rows: &[ComponentLine],
) -> Result<(), OutOfMemory>
    ensures { OnOk result (lines.new.items ≡ lines.old.items ++ components_drawn (world core.now) rows.now) }
{
    for row in rows {
        add_drawn(alloc, lines, core, row.configuration)?;
    }
    Ok(())
}

fn add_drawn(
    alloc: Global,
    lines: &mut Vec<GraphLine>,
    core: &Core,
    number: u64,
) -> Result<(), OutOfMemory>
    ensures { OnOk result (lines.new.items ≡ lines.old.items ++ drawn (world core.now) number) }
{
    match core.details(alloc, number)? {
        Some(details) => add_with(alloc, lines, core, number, &details),
        None => Ok(()),
    }
}

// The component configuration of a number with its details.
fn add_with(
    alloc: Global,
    lines: &mut Vec<GraphLine>,
    core: &Core,
    number: u64,
    details: &ComponentDetails,
) -> Result<(), OutOfMemory>
    requires { exists (world core.now).components number ≡ true }
    ensures { OnOk result (lines.new.items ≡ lines.old.items ++ drawn_with (world core.now) number details.now) }
{
    add_node(alloc, lines, number, details)?;
    add_arrows(alloc, lines, core, number, details)
}

// The component configuration itself, and its bundle.
fn add_node(
    alloc: Global,
    lines: &mut Vec<GraphLine>,
    number: u64,
    details: &ComponentDetails,
) -> Result<(), OutOfMemory>
    ensures { OnOk result (lines.new.items ≡ lines.old.items ++ component_node number details.now) }
{
    let name = details.description.get().name.copy(alloc)?;
    lines.push(GraphLine::Component {
        configuration: number,
        name,
        state: details.state,
    })?;
    lines.push(GraphLine::OfBundle {
        bundle: details.bundle,
        configuration: number,
    })?;
    Ok(())
}

// What it holds and what it lacks.
fn add_arrows(
    alloc: Global,
    lines: &mut Vec<GraphLine>,
    core: &Core,
    number: u64,
    details: &ComponentDetails,
) -> Result<(), OutOfMemory>
    requires { exists (world core.now).components number ≡ true }
    ensures { OnOk result (lines.new.items ≡ lines.old.items ++ component_arrows (world core.now) number details.now) }
{
    let held = held_lines(alloc, core, number)?;
    let open_now = core.open_periods();
    let references = details.references.as_slice();
    add_references(alloc, lines, open_now, number, held.as_slice(), references)?;
    Ok(())
}

// What its living instances hold.
fn held_lines(alloc: Global, core: &Core, number: u64) -> Result<List<HeldLine>, OutOfMemory>
    requires { exists (world core.now).components number ≡ true }
    ensures { IfOk result (λ held. held ≡ held_lines (world core.now) number) }
{
    match core.held_rows(alloc, number) {
        Ok(held) => Ok(held),
        Err(CoreFault::OutOfMemory) => Err(AllocError),
        Err(CoreFault::NoComponent { .. }) => unreachable!(),
        Err(_) => unreachable!(),
    }
}

fn add_references(
    alloc: Global,
    lines: &mut Vec<GraphLine>,
    open_now: &[OpenPeriod],
    number: u64,
    held: &[HeldLine],
    references: &[ReferenceDetails],
) -> Result<(), OutOfMemory>
    ensures { OnOk result (lines.new.items ≡ lines.old.items ++ flat_map (reference_arrows open_now.now number held.now) references.now) }
{
    for reference in references {
        add_reference(alloc, lines, open_now, number, held, reference)?;
    }
    Ok(())
}

fn add_reference(
    alloc: Global,
    lines: &mut Vec<GraphLine>,
    open_now: &[OpenPeriod],
    number: u64,
    held: &[HeldLine],
    reference: &ReferenceDetails,
) -> Result<(), OutOfMemory>
    ensures { OnOk result (lines.new.items ≡ lines.old.items ++ reference_arrows open_now.now number held.now reference.now) }
{
    add_holds(alloc, lines, open_now, number, held, &reference.state.name)?;
    add_lacks(alloc, lines, number, reference)
}

// Below its minimum a reference lacks its interface.
fn add_lacks(
    alloc: Global,
    lines: &mut Vec<GraphLine>,
    number: u64,
    reference: &ReferenceDetails,
) -> Result<(), OutOfMemory>
    ensures { OnOk result (lines.new.items ≡ lines.old.items ++ lack_arrows number reference.now) }
{
    if !reference.state.satisfied {
        lines.push(lack_arrow(alloc, number, reference)?)?;
    }
    Ok(())
}

fn lack_arrow(
    alloc: Global,
    number: u64,
    reference: &ReferenceDetails,
) -> Result<GraphLine, OutOfMemory>
    ensures { IfOk result (λ line. line ≡ GraphLine.Lacks number reference.now.interface_name reference.now.state.name) }
{
    Ok(GraphLine::Lacks {
        configuration: number,
        interface: reference.interface_name.copy(alloc)?,
        reference: reference.state.name.copy(alloc)?,
    })
}
