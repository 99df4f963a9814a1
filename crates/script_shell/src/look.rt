//! What a line asks that only looks, told of a core.
ghost use Rattle.script_shell.specs.Looks.{Looks, is_look};
ghost use Rattle.std.specs.Prelude.{◌≡◌, IfErr, IfOk, true};
ghost use Rattle.turn_runner.specs.declared.settle_fault.SettleFault.TheVariants.{OutOfMemory};

use crate::component_listings::{descriptions, detailed, listed};
use crate::graph::graph;
use crate::listings::{configuration, configurations, journal, listeners};
use crate::readings::{
    bundle_events, bundles, components, events, found, held, reported, services, trace,
};
use crate::routes::routes;
use crate::service_facts::about_service;
use crate::wiring::{bundle_wiring, wiring};
use scr_report::Core;
use shell_lang::{ShellLine, ShellReply};
use std::alloc::Global;
use turn_runner::SettleFault;

/// Whether a line looks at the core and asks nothing else.
pub fn is_look(line: &ShellLine) -> bool
    ensures { result ≡ is_look line.now }
{
    match line {
        ShellLine::Silent => false,
        ShellLine::Quit => false,
        ShellLine::Help(_) => false,
        ShellLine::Command(_) => false,
        ShellLine::Bundles => true,
        ShellLine::Services => true,
        ShellLine::Components => true,
        ShellLine::Report { .. } => true,
        ShellLine::Held { .. } => true,
        ShellLine::ListComponents => true,
        ShellLine::Graph => true,
        ShellLine::Details { .. } => true,
        ShellLine::AboutService { .. } => true,
        ShellLine::Descriptions { .. } => true,
        ShellLine::Find { .. } => true,
        ShellLine::Events { .. } => true,
        ShellLine::BundleEvents { .. } => true,
        ShellLine::Trace { .. } => true,
        ShellLine::Wiring => true,
        ShellLine::BundleWiring { .. } => true,
        ShellLine::Routes => true,
        ShellLine::Configurations => true,
        ShellLine::Configuration { .. } => true,
        ShellLine::Listeners => true,
        ShellLine::Journal => true,
        ShellLine::Settle => false,
        ShellLine::Begin => false,
        ShellLine::Finish { .. } => false,
        ShellLine::Call { .. } => false,
        ShellLine::Http { .. } => false,
    }
}

/// What a line is told of a core that it only looks at: just what a script's line is told there.
///
/// # Errors
/// Only want of memory.
pub fn look_at(alloc: Global, core: &Core, line: &ShellLine) -> Result<ShellReply, SettleFault>
    requires { is_look line.now ≡ true }
    ensures told { IfOk result (λ reply. Looks line.now core.now reply) }
    ensures err { IfErr result (λ fault. fault ≡ OutOfMemory) }
{
    match line {
        ShellLine::Bundles => bundles(alloc, core),
        ShellLine::Services => services(alloc, core),
        ShellLine::Components => components(alloc, core),
        ShellLine::Report { configuration } => reported(alloc, core, *configuration),
        ShellLine::Held { configuration } => held(alloc, core, *configuration),
        ShellLine::ListComponents => listed(alloc, core),
        ShellLine::Graph => graph(alloc, core),
        ShellLine::Details { configuration } => detailed(alloc, core, *configuration),
        ShellLine::AboutService { service } => about_service(alloc, core, *service),
        ShellLine::Descriptions { bundle } => descriptions(alloc, core, *bundle),
        ShellLine::Find { filter } => found(alloc, core, filter),
        ShellLine::Events { listener, after } => events(alloc, core, *listener, *after),
        ShellLine::BundleEvents { after } => bundle_events(alloc, core, *after),
        ShellLine::Trace { after } => trace(alloc, core, *after),
        ShellLine::Wiring => wiring(alloc, core),
        ShellLine::BundleWiring { bundle } => bundle_wiring(alloc, core, *bundle),
        ShellLine::Routes => routes(alloc, core),
        ShellLine::Configurations => configurations(alloc, core),
        ShellLine::Configuration { pid } => configuration(alloc, core, pid),
        ShellLine::Listeners => listeners(alloc, core),
        ShellLine::Journal => Ok(journal(core)),
        ShellLine::Silent => unreachable!(),
        ShellLine::Quit => unreachable!(),
        ShellLine::Help(_) => unreachable!(),
        ShellLine::Command(_) => unreachable!(),
        ShellLine::Settle => unreachable!(),
        ShellLine::Begin => unreachable!(),
        ShellLine::Finish { .. } => unreachable!(),
        ShellLine::Call { .. } => unreachable!(),
        ShellLine::Http { .. } => unreachable!(),
    }
}
