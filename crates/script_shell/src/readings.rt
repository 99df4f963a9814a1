//! What lines ask that look at the core alone.
ghost use Rattle.script_shell.specs.Asks.{events_reply, report_reply};
ghost use Rattle.script_shell.specs.Carries.{CarriesHeld, CarriesReading};
ghost use Rattle.platform_hall.specs.Platforms.{world};
ghost use Rattle.scr_world.specs.Readers.{bundle_events_after, bundle_lines, component_lines, found, service_lines};
ghost use Rattle.scr_world.specs.Steps.{history_of};
ghost use Rattle.scr_world.specs.TurnLines.{turns_above};
ghost use Rattle.scr_world.specs.declared.reply.CoreFault.TheVariants.{NoComponent};
ghost use Rattle.shell_lang.specs.declared.shell_reply.Refusal.TheVariants.{Core as OfCore};
ghost use Rattle.std.specs.Fmt.{decimal};

use crate::asked::refused;
use ldap_filter::Filter;
use prop_map::{List, Str};
use scr_report::{Core, ReportFault, report_text};
use scr_world::CoreFault;
use shell_lang::{Refusal, ShellReply};
use std::alloc::Global;
use turn_runner::SettleFault;

// The bundles and their states.
pub(crate) fn bundles(alloc: Global, core: &Core) -> Result<ShellReply, SettleFault>
    ensures { CarriesReading (ShellReply.Bundles (bundle_lines (world core.now))) result }
{
    let rows = core.bundle_rows(alloc)?;
    Ok(ShellReply::Bundles(rows))
}

// The services.
pub(crate) fn services(alloc: Global, core: &Core) -> Result<ShellReply, SettleFault>
    ensures { CarriesReading (ShellReply.Services (service_lines (world core.now))) result }
{
    let rows = core.service_rows(alloc)?;
    Ok(ShellReply::Services(rows))
}

// The component configurations and their states.
pub(crate) fn components(alloc: Global, core: &Core) -> Result<ShellReply, SettleFault>
    ensures { CarriesReading (ShellReply.Components (component_lines (world core.now))) result }
{
    let rows = core.component_rows(alloc)?;
    Ok(ShellReply::Components(rows))
}

// What is told of a component configuration.
pub(crate) fn reported(
    alloc: Global,
    core: &Core,
    configuration: u64,
) -> Result<ShellReply, SettleFault>
    ensures { CarriesReading (report_reply (world core.now) configuration) result }
{
    match report_text(alloc, core, configuration) {
        Ok(text) => Ok(ShellReply::Report(Str::of(text))),
        Err(ReportFault::NoComponent { id }) => no_component(alloc, id),
        Err(ReportFault::OutOfMemory) => Err(SettleFault::OutOfMemory),
    }
}

// There is no component configuration of this number.
pub(crate) fn no_component(alloc: Global, id: u64) -> Result<ShellReply, SettleFault>
    ensures { CarriesReading (ShellReply.Refused (OfCore (NoComponent (decimal id)))) result }
{
    let name = Str::of(format!(in alloc; "{id}")?);
    let fault = CoreFault::NoComponent { name };
    Ok(ShellReply::Refused(Refusal::Core { fault }))
}

// What the instances of a component configuration hold.
pub(crate) fn held(
    alloc: Global,
    core: &Core,
    configuration: u64,
) -> Result<ShellReply, SettleFault>
    ensures { CarriesHeld configuration core.now result }
{
    match core.held_rows(alloc, configuration) {
        Ok(rows) => Ok(ShellReply::Held(rows)),
        Err(fault) => refused(fault),
    }
}

// The services that a filter matches.
pub(crate) fn found(alloc: Global, core: &Core, filter: &Filter) -> Result<ShellReply, SettleFault>
    ensures { CarriesReading (ShellReply.Found (found (world core.now) filter.now)) result }
{
    let numbers = core.find(alloc, filter)?;
    Ok(ShellReply::Found(List::of(numbers)))
}

// What a listener was told.
pub(crate) fn events(
    alloc: Global,
    core: &Core,
    listener: u64,
    before: u64,
) -> Result<ShellReply, SettleFault>
    ensures { CarriesReading (events_reply (world core.now) listener before) result }
{
    match core.events(listener, before) {
        Ok(events) => {
            let events = List::of(Vec::from_slice(alloc, events)?);
            Ok(ShellReply::Events { before, events })
        }
        Err(fault) => refused(fault),
    }
}

// What happened to bundles.
pub(crate) fn bundle_events(
    alloc: Global,
    core: &Core,
    before: u64,
) -> Result<ShellReply, SettleFault>
    ensures { CarriesReading (ShellReply.BundleEvents before (bundle_events_after before (world core.now))) result }
{
    let events = Vec::from_slice(alloc, core.bundle_events(before))?;
    let events = List::of(events);
    Ok(ShellReply::BundleEvents { before, events })
}

// The turns with a number above this one.
pub(crate) fn trace(alloc: Global, core: &Core, after: u64) -> Result<ShellReply, SettleFault>
    ensures { CarriesReading (ShellReply.Trace (turns_above after (history_of core.now.journal))) result }
{
    let turns = core.trace(alloc, after)?;
    Ok(ShellReply::Trace(turns))
}
