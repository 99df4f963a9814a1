//! Who listens after a step (OSGi Core 8, chapter 5, "Service Listeners").
ghost use Rattle.scr_growth.specs.Growths.{with_listener_change};
ghost use Rattle.scr_world.specs.Tables.{listeners_by, listeners_by_command};
ghost use Rattle.service_listeners.specs.Listening.{ListenerTable};
ghost use Rattle.std.specs.Prelude.{◌≡◌, IfOk, OnErr, OnOk};

use ldap_filter::Filter;
use prop_map::{Copies, OutOfMemory};
use scr_world::{Command, Step};
use service_listeners::Listeners;
use std::alloc::{AllocError, Global};

/// What becomes of the listeners by a step, besides what they are told.
#[derive(Drop)]
pub(crate) enum ListenerChange {
    Nothing,
    Listen { bundle: u64, filter: Filter },
    Unlisten(u64),
    Remove(u64),
}

/// What a step makes of the listeners.
pub(crate) fn listener_change(alloc: Global, step: &Step) -> Result<ListenerChange, OutOfMemory>
    ensures { IfOk result (λ change. (t : ListenerTable) → listeners_by step.now t ≡ with_listener_change change t) }
{
    match step {
        Step::Command(command) => change_by_command(alloc, command),
        _ => Ok(ListenerChange::Nothing),
    }
}

fn change_by_command(alloc: Global, command: &Command) -> Result<ListenerChange, OutOfMemory>
    ensures { IfOk result (λ change. (t : ListenerTable) → listeners_by_command command.now t ≡ with_listener_change change t) }
{
    match command {
        Command::Listen { bundle, filter } => Ok(ListenerChange::Listen {
            bundle: *bundle,
            filter: filter.copy(alloc)?,
        }),
        Command::Unlisten { listener } => Ok(ListenerChange::Unlisten(*listener)),
        Command::Stop { bundle } => Ok(ListenerChange::Remove(*bundle)),
        _ => Ok(ListenerChange::Nothing),
    }
}

/// Makes it of them: all of it or nothing. Where the step may come, nothing but want of memory refuses it.
pub(crate) fn apply(
    alloc: Global,
    listeners: &mut Listeners,
    change: ListenerChange,
) -> Result<(), OutOfMemory>
    ensures ok { OnOk result (listeners.new ≡ with_listener_change change listeners.old) }
    ensures err { OnErr result (listeners.new ≡ listeners.old) }
{
    match change {
        ListenerChange::Nothing => Ok(()),
        ListenerChange::Listen { bundle, filter } => match listeners.listen(alloc, bundle, filter) {
            Ok(_) => Ok(()),
            Err(_) => Err(AllocError),
        },
        ListenerChange::Unlisten(listener) => match listeners.unlisten(listener) {
            Ok(()) => Ok(()),
            Err(_) => Err(AllocError),
        },
        ListenerChange::Remove(bundle) => {
            listeners.remove_listeners_of(bundle);
            Ok(())
        }
    }
}
