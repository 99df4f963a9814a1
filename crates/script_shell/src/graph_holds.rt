//! What a component configuration holds for a reference, in a graph (OSGi Compendium 8, chapter 112, "Bound Services").
ghost use Rattle.component_state.specs.declared.open_period.OpenPeriod.{OpenPeriod};
ghost use Rattle.script_shell.specs.Graphs.{each_by_number, held_for, hold_arrow, hold_arrows, node_of};
ghost use Rattle.std.specs.Option.{option_copied};
ghost use Rattle.std.specs.Prelude.{◌≡◌, ◌++◌, ◌==◌, ◌&&◌, IfOk, OnOk, find, map, not};
ghost use Rattle.std.specs.Str.{bytes_eq};

use component_state::OpenPeriod;
use prop_map::{Copies, OutOfMemory, Str};
use scr_world::HeldLine;
use shell_lang::{GraphLine, GraphNode};
use std::alloc::Global;

// Each service that a living instance holds for the reference of a name, by number.
pub(crate) fn add_holds(
    alloc: Global,
    lines: &mut Vec<GraphLine>,
    open_now: &[OpenPeriod],
    number: u64,
    held: &[HeldLine],
    name: &Str,
) -> Result<(), OutOfMemory>
    ensures { OnOk result (lines.new.items ≡ lines.old.items ++ hold_arrows open_now.now number held.now name.now) }
{
    let services = services_held(alloc, held, name)?;
    add_arrows(alloc, lines, open_now, number, name, &services)?;
    Ok(())
}

fn services_held(alloc: Global, held: &[HeldLine], name: &Str) -> Result<Vec<u64>, OutOfMemory>
    ensures { IfOk result (λ v. v.items ≡ each_by_number (held_for name.now held.now)) }
{
    let services = held_for(alloc, held, name)?;
    Ok(each_by_number(services))
}

fn held_for(alloc: Global, held: &[HeldLine], name: &Str) -> Result<Vec<u64>, OutOfMemory>
    ensures { IfOk result (λ v. v.items ≡ held_for name.now held.now) }
{
    let mut services = Vec::new(alloc);
    for line in held {
        if is_for(line, name) {
            services.push(line.service)?;
        }
    }
    Ok(services)
}

fn is_for(line: &HeldLine, name: &Str) -> bool
    ensures { result ≡ bytes_eq line.now.reference name.now }
{
    line.reference.as_str() == name.as_str()
}

// Numbers in their order, each once. It takes no memory.
fn each_by_number(numbers: Vec<u64>) -> Vec<u64>
    ensures { result.items ≡ each_by_number numbers.items }
{
    let mut numbers = numbers;
    numbers.sort_unstable();
    numbers.dedup();
    numbers
}

fn add_arrows(
    alloc: Global,
    lines: &mut Vec<GraphLine>,
    open_now: &[OpenPeriod],
    number: u64,
    name: &Str,
    services: &[u64],
) -> Result<(), OutOfMemory>
    ensures { OnOk result (lines.new.items ≡ lines.old.items ++ map (hold_arrow open_now.now number name.now) services.now) }
{
    for &service in services {
        lines.push(hold_arrow(alloc, open_now, number, name, service)?)?;
    }
    Ok(())
}

fn hold_arrow(
    alloc: Global,
    open_now: &[OpenPeriod],
    number: u64,
    name: &Str,
    service: u64,
) -> Result<GraphLine, OutOfMemory>
    ensures { IfOk result (λ line. line ≡ hold_arrow open_now.now number name.now service) }
{
    Ok(GraphLine::Holds {
        configuration: number,
        node: node_of(open_now, service),
        reference: name.copy(alloc)?,
    })
}

// The open component configuration whose service it is, else the service itself.
fn node_of(open_now: &[OpenPeriod], service: u64) -> GraphNode
    ensures { result ≡ node_of open_now.now service }
{
    match registered_by(open_now, service) {
        Some(period) => GraphNode::Component(period.configuration),
        None => GraphNode::Service(service),
    }
}

fn registered_by(open_now: &[OpenPeriod], service: u64) -> Option<&OpenPeriod>
    ensures { option_copied result ≡ find (λ (p : OpenPeriod). not (p.row.id == 0) && (p.row.id == service)) open_now.now }
{
    open_now
        .iter()
        .find(|period| period.row.id != 0 && period.row.id == service)
}
