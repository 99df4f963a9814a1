//! Commands that no component tells apart.
ghost use Rattle.scr_unseen.specs.Unseen.{is_unmet, is_unseen, leaves_services, service_of};
ghost use Rattle.scr_world.specs.Tables.{registry_by};
ghost use Rattle.scr_world.specs.declared.step.Step.TheVariants.{Command as Commanded};
ghost use Rattle.std.specs.Prelude.{◌≡◌, ◌+◌, ◌^◌, ◌<◌, ◌&&◌, IfOk};

use crate::needs::is_unmet;
use component_state::Component;
use prop_map::OutOfMemory;
use scr_world::{Command, Step, World};
use service_registry::ServiceRow;
use std::alloc::Global;

/// Whether a step is a command that no component tells apart: a get or its return, a listener that comes or goes, or one
/// that registers, unregisters or changes a service that meets no need of a component configuration, before it or after.
/// The direct services after it are the caller's.
///
/// # Errors
/// Only want of memory.
pub fn is_unseen(
    alloc: Global,
    world: &World,
    step: &Step,
    after: &[ServiceRow],
) -> Result<bool, OutOfMemory>
    requires after { after.now ≡ (registry_by step.now world.now.registry).rows }
    requires next { world.now.registry.numbered + 1 < 2 ^ 64 }
    ensures { IfOk result (λ so. so ≡ is_unseen step.now world.now) }
{
    if leaves_services(step) {
        return Ok(true);
    }
    match service_of(world, step) {
        Some(service) => {
            let components = world.components.as_slice();
            is_unmet_twice(alloc, components, service, world.registry.rows(), after)
        }
        None => Ok(false),
    }
}

// Whether a command leaves services and configurations as they are.
fn leaves_services(step: &Step) -> bool
    ensures { result ≡ leaves_services step.now }
{
    match step {
        Step::Command(command) => command_leaves_services(command),
        _ => false,
    }
}

fn command_leaves_services(command: &Command) -> bool
    ensures { result ≡ leaves_services (Commanded command.now) }
{
    matches!(
        command,
        Command::Get { .. }
            | Command::Unget { .. }
            | Command::Listen { .. }
            | Command::Unlisten { .. }
    )
}

// The number of the service that a command registers, unregisters or changes.
fn service_of(world: &World, step: &Step) -> Option<u64>
    requires { world.now.registry.numbered + 1 < 2 ^ 64 }
    ensures { result ≡ service_of step.now world.now }
{
    match step {
        Step::Command(Command::Register { .. }) => Some(world.registry.numbered() + 1),
        Step::Command(Command::Unregister { service, .. }) => Some(*service),
        Step::Command(Command::SetProperties { service, .. }) => Some(*service),
        _ => None,
    }
}

// The service of this number meets no need among the one or the other.
fn is_unmet_twice(
    alloc: Global,
    components: &[Component],
    service: u64,
    before: &[ServiceRow],
    after: &[ServiceRow],
) -> Result<bool, OutOfMemory>
    ensures { IfOk result (λ so. so ≡ (is_unmet components.now service before.now && is_unmet components.now service after.now)) }
{
    if !is_unmet(alloc, components, service, before)? {
        return Ok(false);
    }
    is_unmet(alloc, components, service, after)
}
