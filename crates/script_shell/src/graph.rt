//! What the line `graph` asks.
ghost use Rattle.platform_hall.specs.Platforms.{world};
ghost use Rattle.scr_world.specs.Readers.{service_lines};
ghost use Rattle.script_shell.specs.Carries.{CarriesReading};
ghost use Rattle.script_shell.specs.Graphs.{all_drawn, bundle_node, direct_nodes, graph_lines, service_node};
ghost use Rattle.std.specs.Prelude.{◌≡◌, ◌++◌, IfOk, OnOk, map};

use crate::graph_components::add_components;
use bundle_life::BundleLife;
use prop_map::{Copies, List, OutOfMemory};
use scr_report::Core;
use service_registry::ServiceRow;
use shell_lang::{GraphLine, ShellReply};
use std::alloc::Global;
use turn_runner::SettleFault;

// The bundles, the direct services and the component configurations, each with what it holds and what it lacks.
pub(crate) fn graph(alloc: Global, core: &Core) -> Result<ShellReply, SettleFault>
    ensures { CarriesReading (ShellReply.Graph (graph_lines (world core.now))) result }
{
    let lines = graph_lines(alloc, core)?;
    Ok(ShellReply::Graph(List::of(lines)))
}

fn graph_lines(alloc: Global, core: &Core) -> Result<Vec<GraphLine>, OutOfMemory>
    ensures { IfOk result (λ v. v.items ≡ graph_lines (world core.now)) }
{
    let mut lines = Vec::new(alloc);
    add_lines(alloc, &mut lines, core)?;
    Ok(lines)
}

fn add_lines(alloc: Global, lines: &mut Vec<GraphLine>, core: &Core) -> Result<(), OutOfMemory>
    ensures { OnOk result (lines.new.items ≡ lines.old.items ++ graph_lines (world core.now)) }
{
    lines.push(GraphLine::Opening)?;
    add_all(alloc, lines, core)?;
    lines.push(GraphLine::Closing)?;
    Ok(())
}

fn add_all(alloc: Global, lines: &mut Vec<GraphLine>, core: &Core) -> Result<(), OutOfMemory>
    ensures { OnOk result (lines.new.items ≡ lines.old.items ++ all_drawn (world core.now)) }
{
    add_bundles(alloc, lines, core.bundles())?;
    add_services(alloc, lines, core)?;
    add_components(alloc, lines, core)
}

fn add_bundles(
    alloc: Global,
    lines: &mut Vec<GraphLine>,
    rows: &[BundleLife],
) -> Result<(), OutOfMemory>
    ensures { OnOk result (lines.new.items ≡ lines.old.items ++ map bundle_node rows.now) }
{
    for row in rows {
        lines.push(bundle_node(alloc, row)?)?;
    }
    Ok(())
}

fn bundle_node(alloc: Global, row: &BundleLife) -> Result<GraphLine, OutOfMemory>
    ensures { IfOk result (λ line. line ≡ bundle_node row.now) }
{
    Ok(GraphLine::Bundle {
        bundle: row.number,
        location: row.location.copy(alloc)?,
        state: row.state.number(),
    })
}

// The services without a component behind them.
fn add_services(alloc: Global, lines: &mut Vec<GraphLine>, core: &Core) -> Result<(), OutOfMemory>
    ensures { OnOk result (lines.new.items ≡ lines.old.items ++ direct_nodes (service_lines (world core.now))) }
{
    let rows = core.service_rows(alloc)?;
    add_direct(alloc, lines, rows.as_slice())?;
    Ok(())
}

fn add_direct(
    alloc: Global,
    lines: &mut Vec<GraphLine>,
    rows: &[ServiceRow],
) -> Result<(), OutOfMemory>
    ensures { OnOk result (lines.new.items ≡ lines.old.items ++ direct_nodes rows.now) }
{
    for row in rows {
        if row.direct {
            lines.push(service_node(alloc, row)?)?;
        }
    }
    Ok(())
}

fn service_node(alloc: Global, row: &ServiceRow) -> Result<GraphLine, OutOfMemory>
    ensures { IfOk result (λ line. line ≡ service_node row.now) }
{
    Ok(GraphLine::Service {
        service: row.id,
        interfaces: row.interfaces.copy(alloc)?,
    })
}
