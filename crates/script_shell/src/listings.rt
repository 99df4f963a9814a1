//! What lines ask that tell what is there: configurations, listeners, and the room of the journal.
ghost use Rattle.platform_hall.specs.Platforms.{world};
ghost use Rattle.script_shell.specs.Carries.{CarriesReading};
ghost use Rattle.script_shell.specs.Listings.{configuration_line, configuration_lines, configuration_reply, configuration_told, journal_reply, listener_line, listener_lines};
ghost use Rattle.std.specs.Prelude.{◌≡◌, IfOk, map};

use config_admin::Configuration;
use prop_map::{Copies, List, OutOfMemory, Str};
use scr_report::{Core, properties_text};
use scr_world::CoreFault;
use service_listeners::Listener;
use shell_lang::{ConfigurationLine, ListenerLine, Refusal, ShellReply};
use std::alloc::Global;
use turn_runner::SettleFault;

// The configurations, and for which component configurations each counts.
pub(crate) fn configurations(alloc: Global, core: &Core) -> Result<ShellReply, SettleFault>
    ensures { CarriesReading (ShellReply.Configurations (configuration_lines (world core.now))) result }
{
    let lines = configuration_lines(alloc, core, core.configurations())?;
    Ok(ShellReply::Configurations(lines))
}

fn configuration_lines(
    alloc: Global,
    core: &Core,
    rows: &[Configuration],
) -> Result<List<ConfigurationLine>, OutOfMemory>
    ensures { IfOk result (λ lines. lines ≡ map (configuration_line (world core.now)) rows.now) }
{
    let mut lines = Vec::new(alloc);
    for row in rows {
        lines.push(configuration_line(alloc, core, row)?)?;
    }
    Ok(List::of(lines))
}

fn configuration_line(
    alloc: Global,
    core: &Core,
    row: &Configuration,
) -> Result<ConfigurationLine, OutOfMemory>
    ensures { IfOk result (λ line. line ≡ configuration_line (world core.now) row.now) }
{
    let pid = row.pid.copy(alloc)?;
    let factory = row.factory.copy(alloc)?;
    let numbers = core.counting_numbers(alloc, row)?;
    Ok(ConfigurationLine {
        pid,
        factory,
        numbers,
    })
}

// The properties of the configuration of a PID, where it has one.
pub(crate) fn configuration(
    alloc: Global,
    core: &Core,
    pid: &Str,
) -> Result<ShellReply, SettleFault>
    ensures { CarriesReading (configuration_reply (world core.now) pid.now) result }
{
    match core.configuration(pid.as_str()) {
        Some(row) => configuration_told(alloc, row),
        None => {
            let fault = CoreFault::NoConfiguration;
            Ok(ShellReply::Refused(Refusal::Core { fault }))
        }
    }
}

fn configuration_told(alloc: Global, row: &Configuration) -> Result<ShellReply, SettleFault>
    ensures { CarriesReading (configuration_told row.now) result }
{
    let text = properties_text(alloc, &row.properties)?;
    Ok(ShellReply::Configuration(Str::of(text)))
}

// The listeners.
pub(crate) fn listeners(alloc: Global, core: &Core) -> Result<ShellReply, SettleFault>
    ensures { CarriesReading (ShellReply.Listeners (listener_lines (world core.now))) result }
{
    let lines = listener_lines(alloc, core.listeners())?;
    Ok(ShellReply::Listeners(lines))
}

fn listener_lines(alloc: Global, rows: &[Listener]) -> Result<List<ListenerLine>, OutOfMemory>
    ensures { IfOk result (λ lines. lines ≡ map listener_line rows.now) }
{
    let mut lines = Vec::new(alloc);
    for row in rows {
        lines.push(listener_line(row))?;
    }
    Ok(List::of(lines))
}

fn listener_line(row: &Listener) -> ListenerLine
    ensures { result ≡ listener_line row.now }
{
    ListenerLine {
        listener: row.number,
        bundle: row.bundle,
        told: row.events.as_slice().len() as u64,
    }
}

// How many entries the journal has, how many more are reserved, and how many it may have. It takes no memory.
pub(crate) fn journal(core: &Core) -> ShellReply
    ensures { result ≡ journal_reply core.now }
{
    ShellReply::Journal {
        used: core.journal().length(),
        reserved: core.reserved(),
        limit: core.limits().journal,
    }
}
