//! What the line `routes` asks.
ghost use Rattle.platform_hall.specs.Platforms.{world};
ghost use Rattle.script_shell.specs.Carries.{CarriesReading};
ghost use Rattle.script_shell.specs.Routes.{effect_line, failure_line, route_lines};
ghost use Rattle.scr_calls.specs.Servlets.{routing_in};
ghost use Rattle.scr_readers.specs.Reaching.{held_rows};
ghost use Rattle.std.specs.Prelude.{◌≡◌, ◌++◌, IfOk, OnOk, codes, map};
ghost use Rattle.wb_routes.specs.Listing.{routing_of};

use prop_map::{Copies, List, OutOfMemory, Str};
use scr_report::Core;
use service_registry::ServiceRow;
use shell_lang::{RouteLine, ShellReply};
use std::alloc::Global;
use turn_runner::SettleFault;
use wb_routes::{RouteFailure, RouteRow, Routes};

// The patterns of servlets that are in effect, and what isn't and why.
pub(crate) fn routes(alloc: Global, core: &Core) -> Result<ShellReply, SettleFault>
    ensures { CarriesReading (ShellReply.Routes (route_lines (routing_in (world core.now)))) result }
{
    let routes = routes_in(alloc, core)?;
    let lines = lines_of(alloc, &routes)?;
    Ok(ShellReply::Routes(lines))
}

// What the whiteboard's instance holds for a reference.
fn held_by_board(
    alloc: Global,
    core: &Core,
    reference: &str,
) -> Result<List<ServiceRow>, OutOfMemory>
    ensures { IfOk result (λ rows. rows ≡ held_rows (world core.now) reference.now (world core.now).whiteboard) }
{
    let reference = Str::spell(alloc, reference)?;
    core.note_legal();
    core.held_services(alloc, 0, &reference)
}

// The routes over these servlets.
fn routes_over(alloc: Global, core: &Core, servlets: &[ServiceRow]) -> Result<Routes, OutOfMemory>
    ensures { IfOk result (λ routes.
        routes ≡ routing_of (held_rows (world core.now) (codes "contexts") (world core.now).whiteboard) servlets.now) }
{
    let contexts = held_by_board(alloc, core, "contexts")?;
    Routes::of(alloc, contexts.as_slice(), servlets)
}

// The routes of what the whiteboard's instance holds.
fn routes_in(alloc: Global, core: &Core) -> Result<Routes, OutOfMemory>
    ensures { IfOk result (λ routes. routes ≡ routing_in (world core.now)) }
{
    let servlets = held_by_board(alloc, core, "servlets")?;
    routes_over(alloc, core, servlets.as_slice())
}

// The lines of routes.
fn lines_of(alloc: Global, routes: &Routes) -> Result<List<RouteLine>, OutOfMemory>
    ensures { IfOk result (λ lines. lines ≡ route_lines routes.now) }
{
    let mut lines = Vec::new(alloc);
    push_effects(alloc, &mut lines, routes.rows())?;
    push_failures(&mut lines, routes.failures())?;
    Ok(List::of(lines))
}

fn push_effects(
    alloc: Global,
    lines: &mut Vec<RouteLine>,
    rows: &[RouteRow],
) -> Result<(), OutOfMemory>
    ensures { OnOk result (lines.new.items ≡ lines.old.items ++ map effect_line rows.now) }
{
    for row in rows {
        lines.push(effect_line(alloc, row)?)?;
    }
    Ok(())
}

fn effect_line(alloc: Global, row: &RouteRow) -> Result<RouteLine, OutOfMemory>
    ensures { IfOk result (λ line. line ≡ effect_line row.now) }
{
    let path = row.path.copy(alloc)?;
    let pattern = row.pattern.copy(alloc)?;
    let service = row.service;
    Ok(RouteLine::Route {
        path,
        pattern,
        service,
    })
}

fn push_failures(lines: &mut Vec<RouteLine>, failures: &[RouteFailure]) -> Result<(), OutOfMemory>
    ensures { OnOk result (lines.new.items ≡ lines.old.items ++ map failure_line failures.now) }
{
    for failure in failures {
        lines.push(RouteLine::Failed {
            service: failure.service,
            cause: failure.cause,
        })?;
    }
    Ok(())
}
