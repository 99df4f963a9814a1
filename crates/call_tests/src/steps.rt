//! What is done on a new platform, step by step.

use crate::came::Came;
use crate::told::{Told, request};
use bundle_doc::read_bundle;
use kind_trait::Kinds;
use platform_hall::Platform;
use prop_map::{List, OutOfMemory, Properties, Str, Value};
use scr_world::{Command, Limits};
use std::alloc::Global;

const LIMITS: Limits = Limits {
    journal: 1000,
    turns: 100,
};

/// A step. A command is to be taken, and a call or a request to come to what it says.
pub(crate) enum Step<'s> {
    /// A bundle of this document is installed.
    Install(&'s str),
    /// The bundle is started.
    Start(u64),
    /// The bundle is stopped.
    Stop(u64),
    /// The bundle registers a service of the interface P.
    Register(u64),
    /// The bundle registers a servlet for the path `/s`.
    RegisterServlet(u64),
    /// What is due runs.
    Settle,
    /// The bundle asks the service for "hi".
    Call {
        bundle: u64,
        service: u64,
        came: Came<'s>,
    },
    /// A request for the path `/s` is answered so.
    Ask(Told<'s>),
}

// Whether the platform takes the command.
fn takes<K: Kinds + Drop>(alloc: Global, platform: &mut Platform<K>, command: Command) -> bool {
    match platform.command(alloc, command) {
        Ok(_) => true,
        Err(_) => false,
    }
}

fn installs<K: Kinds + Drop>(alloc: Global, platform: &mut Platform<K>, document: &str) -> bool {
    match read_bundle(alloc, document.as_bytes()) {
        Ok(doc) => takes(alloc, platform, Command::Install { doc }),
        Err(_) => false,
    }
}

// The names of one interface.
fn interfaces(alloc: Global, name: &str) -> Result<List<Str>, OutOfMemory> {
    let name = Str::spell(alloc, name)?;
    let mut names = Vec::new(alloc);
    names.push(name)?;
    Ok(List::of(names))
}

// The properties of a servlet for the path `/s`.
fn at_its_path(alloc: Global) -> Result<Properties, OutOfMemory> {
    let pattern = Value::Text(Str::spell(alloc, "/s")?);
    let mut properties = Properties::new(alloc);
    properties.set(alloc, "osgi.http.whiteboard.servlet.pattern", pattern)?;
    Ok(properties)
}

fn registers<K: Kinds + Drop>(
    alloc: Global,
    platform: &mut Platform<K>,
    bundle: u64,
    interface: &str,
    properties: Properties,
) -> bool {
    match interfaces(alloc, interface) {
        Ok(interfaces) => {
            let command = Command::Register {
                bundle,
                interfaces,
                properties,
            };
            takes(alloc, platform, command)
        }
        Err(_) => false,
    }
}

fn registers_servlet<K: Kinds + Drop>(
    alloc: Global,
    platform: &mut Platform<K>,
    bundle: u64,
) -> bool {
    match at_its_path(alloc) {
        Ok(properties) => registers(alloc, platform, bundle, "javax.servlet.Servlet", properties),
        Err(_) => false,
    }
}

fn calls<K: Kinds + Drop>(
    alloc: Global,
    platform: &mut Platform<K>,
    bundle: u64,
    service: u64,
    came: &Came<'_>,
) -> bool {
    let answer = platform.call(alloc, bundle, service, "hi");
    came.is(&answer)
}

fn asks<K: Kinds + Drop>(alloc: Global, platform: &mut Platform<K>, told: &Told<'_>) -> bool {
    match request(alloc) {
        Some(request) => {
            let answer = platform.http(alloc, &request);
            told.is(&answer)
        }
        None => false,
    }
}

fn comes_true<K: Kinds + Drop>(alloc: Global, platform: &mut Platform<K>, step: &Step<'_>) -> bool {
    match step {
        Step::Install(document) => installs(alloc, platform, document),
        Step::Start(bundle) => takes(alloc, platform, Command::Start { bundle: *bundle }),
        Step::Stop(bundle) => takes(alloc, platform, Command::Stop { bundle: *bundle }),
        Step::Register(bundle) => {
            registers(alloc, platform, *bundle, "P", Properties::new(alloc))
        }
        Step::RegisterServlet(bundle) => registers_servlet(alloc, platform, *bundle),
        Step::Settle => platform.settle(alloc).is_ok(),
        Step::Call {
            bundle,
            service,
            came,
        } => calls(alloc, platform, *bundle, *service, came),
        Step::Ask(told) => asks(alloc, platform, told),
    }
}

fn come_true<K: Kinds + Drop>(
    alloc: Global,
    platform: &mut Platform<K>,
    steps: &[Step<'_>],
) -> bool {
    for step in steps {
        if !comes_true(alloc, platform, step) {
            return false;
        }
    }
    true
}

// Whether each step comes to what it is to on a new platform. No other function owns one.
pub(crate) fn hold<K: Kinds + Drop>(alloc: Global, kinds: K, steps: &[Step<'_>]) -> bool {
    match Platform::new(alloc, kinds, LIMITS) {
        Ok(mut platform) => come_true(alloc, &mut platform, steps),
        Err(_) => false,
    }
}
