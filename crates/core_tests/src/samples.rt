//! A core for tests, and what it is asked first.
ghost use Rattle.scr_core.specs.Cores.{AreWithinGreatest};

use bundle_doc::read_bundle;
use ldap_filter::Filter;
use prop_map::{List, OutOfMemory, Properties, Str};
use scr_core::{Command, Core, Limits, Reply};
use std::alloc::Global;

pub(crate) const LIMITS: Limits = Limits {
    journal: 100,
    turns: 100,
};

// A bundle whose component consumes P at once.
pub(crate) const CONSUMER: &str =
    r#"{"location":"c","components":{"c":{"implementationClass":"C","references":[{"interfaceName":"P"}]}}}"#;

// A bundle whose component provides P.
pub(crate) const PROVIDER: &str =
    r#"{"location":"p","components":{"p":{"implementationClass":"D","serviceInterfaces":["P"]}}}"#;

// Whether steps come to what they are to on an empty core. Beside this one and that of the journal that is left no function
// owns a core.
pub(crate) fn on_core<F: FnOnce(Global, &mut Core) -> bool + Drop>(
    alloc: Global,
    limits: Limits,
    steps: F,
) -> bool
    requires callable { F.IsAlwaysCallable steps }
    requires within { AreWithinGreatest limits }
{
    match Core::new(alloc, limits) {
        Ok(mut core) => steps(alloc, &mut core),
        Err(_) => false,
    }
}

// Whether a command is answered so.
pub(crate) fn takes(alloc: Global, core: &mut Core, command: Command, reply: Reply) -> bool {
    match core.command(alloc, command) {
        Ok(accepted) => accepted.reply == reply,
        Err(_) => false,
    }
}

pub(crate) fn installs(alloc: Global, core: &mut Core, document: &str, bundle: u64) -> bool {
    match read_bundle(alloc, document.as_bytes()) {
        Ok(doc) => takes(alloc, core, Command::Install { doc }, Reply::Bundle(bundle)),
        Err(_) => false,
    }
}

// Gives bundle 1 another document.
pub(crate) fn updates(alloc: Global, core: &mut Core, document: &str) -> bool {
    match read_bundle(alloc, document.as_bytes()) {
        Ok(doc) => takes(alloc, core, Command::Update { bundle: 1, doc }, Reply::Done),
        Err(_) => false,
    }
}

pub(crate) fn starts(alloc: Global, core: &mut Core, bundle: u64) -> bool {
    takes(alloc, core, Command::Start { bundle }, Reply::Done)
}

// Installs a bundle, which gets this number, and starts it.
pub(crate) fn runs(alloc: Global, core: &mut Core, document: &str, bundle: u64) -> bool {
    installs(alloc, core, document, bundle) && starts(alloc, core, bundle)
}

// Runs the consumer of P, and then its provider.
pub(crate) fn runs_both(alloc: Global, core: &mut Core) -> bool {
    runs(alloc, core, CONSUMER, 1) && runs(alloc, core, PROVIDER, 2)
}

fn only(alloc: Global, name: &str) -> Result<List<Str>, OutOfMemory> {
    let name = Str::spell(alloc, name)?;
    let mut items = Vec::new(alloc);
    items.push(name)?;
    Ok(List::of(items))
}

// Registers a service of S for bundle 1, which gets this number.
pub(crate) fn registers(alloc: Global, core: &mut Core, service: u64) -> bool {
    match only(alloc, "S") {
        Ok(interfaces) => {
            let properties = Properties::new(alloc);
            let command = Command::Register {
                bundle: 1,
                interfaces,
                properties,
            };
            takes(alloc, core, command, Reply::Service(service))
        }
        Err(_) => false,
    }
}

// Lets bundle 1 listen to what happens to services of S.
pub(crate) fn listens(alloc: Global, core: &mut Core) -> bool {
    match Filter::parse(alloc, "(objectClass=S)") {
        Ok(filter) => {
            let command = Command::Listen { bundle: 1, filter };
            takes(alloc, core, command, Reply::Listener(1))
        }
        Err(_) => false,
    }
}
