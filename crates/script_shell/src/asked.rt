//! What a line asks, carried out.
ghost use Rattle.std.specs.Prelude.{◌≡◌};
ghost use Rattle.script_shell.specs.Asks.{line_for};
ghost use Rattle.platform_hall.specs.Platforms.{world};
ghost use Rattle.script_shell.specs.Carries.{CarriesBegin, CarriesCommand, CarriesFinish, CarriesOut, CarriesReading, TellsRefusal};
ghost use Rattle.script_shell.specs.Routes.{route_lines};
ghost use Rattle.scr_calls.specs.Servlets.{routing_in};
ghost use Rattle.shell_lang.specs.declared.shell_line.ShellLine.TheVariants.{Settle};
ghost use Rattle.std.specs.Prelude.{Ok};

use crate::calling::call;
use crate::component_listings::{descriptions, detailed, listed};
use crate::graph::graph;
use crate::listings::{configuration, configurations, journal, listeners};
use crate::readings::{
    bundle_events, bundles, components, events, found, held, reported, services, trace,
};
use crate::requests::http;
use crate::routes::routes;
use crate::service_facts::about_service;
use crate::wiring::{bundle_wiring, wiring};
use callback_orders::Outcome;
use kind_trait::Kinds;
use platform_hall::{FinishFault, Platform};
use scr_world::{Command, CoreFault, Reply, TurnLine};
use shell_lang::{LineFault, Refusal, ShellLine, ShellReply};
use std::alloc::Global;
use turn_runner::{SettleFault, TurnWork};

// Carries out what a line asks, and answers what is told.
pub(crate) fn carry_out<K: Kinds + Drop>(
    alloc: Global,
    manual: bool,
    platform: &mut Platform<K>,
    asked: Result<ShellLine, LineFault>,
) -> Result<Option<ShellReply>, SettleFault>
    ensures { CarriesOut (record { is_manual = manual; refuses = K.refuses; next = K.next }) asked platform.old result platform.new }
{
    let core = platform.core();
    match asked {
        Err(fault) => Ok(Some(ShellReply::Refused(Refusal::Line { fault }))),
        Ok(ShellLine::Silent | ShellLine::Quit) => Ok(None),
        Ok(ShellLine::Help(rows)) => Ok(Some(ShellReply::Help(rows))),
        Ok(ShellLine::Command(command)) => Ok(Some(run_command(alloc, platform, command)?)),
        Ok(ShellLine::Bundles) => Ok(Some(bundles(alloc, core)?)),
        Ok(ShellLine::Services) => Ok(Some(services(alloc, core)?)),
        Ok(ShellLine::Components) => Ok(Some(components(alloc, core)?)),
        Ok(ShellLine::Report { configuration }) => {
            Ok(Some(reported(alloc, core, configuration)?))
        }
        Ok(ShellLine::Held { configuration }) => Ok(Some(held(alloc, core, configuration)?)),
        Ok(ShellLine::ListComponents) => Ok(Some(listed(alloc, core)?)),
        Ok(ShellLine::Graph) => Ok(Some(graph(alloc, core)?)),
        Ok(ShellLine::Details { configuration }) => {
            Ok(Some(detailed(alloc, core, configuration)?))
        }
        Ok(ShellLine::AboutService { service }) => {
            Ok(Some(about_service(alloc, core, service)?))
        }
        Ok(ShellLine::Descriptions { bundle }) => Ok(Some(descriptions(alloc, core, bundle)?)),
        Ok(ShellLine::Find { filter }) => Ok(Some(found(alloc, core, &filter)?)),
        Ok(ShellLine::Events { listener, after }) => {
            Ok(Some(events(alloc, core, listener, after)?))
        }
        Ok(ShellLine::BundleEvents { after }) => Ok(Some(bundle_events(alloc, core, after)?)),
        Ok(ShellLine::Trace { after }) => Ok(Some(trace(alloc, core, after)?)),
        Ok(ShellLine::Wiring) => Ok(Some(wiring(alloc, core)?)),
        Ok(ShellLine::BundleWiring { bundle }) => Ok(Some(bundle_wiring(alloc, core, bundle)?)),
        Ok(ShellLine::Routes) => Ok(Some(told_routes(alloc, platform)?)),
        Ok(ShellLine::Configurations) => Ok(Some(configurations(alloc, core)?)),
        Ok(ShellLine::Configuration { pid }) => Ok(Some(configuration(alloc, core, &pid)?)),
        Ok(ShellLine::Listeners) => Ok(Some(listeners(alloc, core)?)),
        Ok(ShellLine::Journal) => Ok(Some(journal(core))),
        Ok(ShellLine::Settle) => settled(alloc, manual, platform),
        Ok(ShellLine::Begin) => Ok(Some(begin(alloc, manual, platform)?)),
        Ok(ShellLine::Finish { turn }) => Ok(Some(finish(alloc, manual, platform, turn)?)),
        Ok(
            ShellLine::Call {
                bundle,
                service,
                request,
            },
        ) => {
            let told = call(alloc, platform, bundle, service, &request)?;
            Ok(Some(told))
        }
        Ok(
            ShellLine::Http {
                method,
                target,
                body,
            },
        ) => Ok(Some(http(alloc, platform, method, target, body)?)),
    }
}

// The patterns of servlets that are in effect on the platform, and what isn't and why.
fn told_routes<K: Kinds + Drop>(
    alloc: Global,
    platform: &Platform<K>,
) -> Result<ShellReply, SettleFault>
    ensures { CarriesReading (ShellReply.Routes (route_lines (routing_in (world platform.now)))) result }
{
    routes(alloc, platform.core())
}

fn run_command<K: Kinds + Drop>(
    alloc: Global,
    platform: &mut Platform<K>,
    command: Command,
) -> Result<ShellReply, SettleFault>
    ensures { CarriesCommand command platform.old result platform.new }
{
    match platform.command(alloc, command) {
        Ok(Reply::Done) => Ok(ShellReply::Done),
        Ok(Reply::Bundle(bundle)) => Ok(ShellReply::Bundle(bundle)),
        Ok(Reply::Service(service)) => Ok(ShellReply::Service(service)),
        Ok(Reply::Uses(uses)) => Ok(ShellReply::Uses(uses)),
        Ok(Reply::Listener(listener)) => Ok(ShellReply::Listener(listener)),
        Err(fault) => refused(fault),
    }
}

// A full journal and want of memory end the run; any other refusal is told.
pub(crate) fn refused(fault: CoreFault) -> Result<ShellReply, SettleFault>
    ensures { TellsRefusal fault result }
{
    match fault {
        CoreFault::JournalFull => Err(SettleFault::JournalFull),
        CoreFault::OutOfMemory => Err(SettleFault::OutOfMemory),
        fault => Ok(ShellReply::Refused(Refusal::Core { fault })),
    }
}

// The turns that are due run until none is.
fn settled<K: Kinds + Drop>(
    alloc: Global,
    manual: bool,
    platform: &mut Platform<K>,
) -> Result<Option<ShellReply>, SettleFault>
    ensures { CarriesOut (record { is_manual = manual; refuses = K.refuses; next = K.next }) (Ok Settle) platform.old result platform.new }
{
    match platform.settle(alloc) {
        Ok(count) => Ok(Some(ShellReply::Turns(count))),
        Err(fault) => Err(fault),
    }
}

fn begin<K: Kinds + Drop>(
    alloc: Global,
    manual: bool,
    platform: &mut Platform<K>,
) -> Result<ShellReply, SettleFault>
    ensures { CarriesBegin manual platform.old result platform.new }
{
    if !manual {
        return Ok(ShellReply::Refused(Refusal::NotManual));
    }
    let turn = match platform.begin(alloc) {
        Ok(Some(turn)) => turn,
        Ok(None) => return Ok(ShellReply::Idle),
        Err(CoreFault::JournalFull) => return Err(SettleFault::JournalFull),
        Err(CoreFault::OutOfMemory) => return Err(SettleFault::OutOfMemory),
        Err(_) => unreachable!(),
    };
    match platform.core().turn_work(alloc, turn)? {
        Some(work) => Ok(ShellReply::Begun(begun_line(work))),
        None => unreachable!(),
    }
}

// A turn that has begun.
fn begun_line(work: TurnWork) -> TurnLine
    ensures { result ≡ line_for work }
{
    let TurnWork {
        number,
        callback,
        instance,
        name,
        ..
    } = work;
    TurnLine {
        turn: number,
        callback,
        instance,
        name,
        outcome: None,
    }
}

fn finish<K: Kinds + Drop>(
    alloc: Global,
    manual: bool,
    platform: &mut Platform<K>,
    turn: u64,
) -> Result<ShellReply, SettleFault>
    ensures { CarriesFinish manual K.refuses turn platform.old result platform.new }
{
    if !manual {
        return Ok(ShellReply::Refused(Refusal::NotManual));
    }
    match platform.finish(alloc, turn) {
        Ok(Outcome::Done) => Ok(ShellReply::Finished(Outcome::Done)),
        Ok(Outcome::Refused) => Ok(ShellReply::Finished(Outcome::Refused)),
        Err(FinishFault::NoTurn) => Ok(ShellReply::Refused(Refusal::NoTurn { turn })),
        Ok(Outcome::NoMemory) => Err(SettleFault::OutOfMemory),
        Err(FinishFault::OutOfMemory) => Err(SettleFault::OutOfMemory),
    }
}
