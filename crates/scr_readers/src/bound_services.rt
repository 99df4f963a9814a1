//! What is bound to the references of a component configuration (OSGi Compendium 8, chapter 112, "Bound Services").
ghost use Rattle.callback_orders.specs.Lives.{held_for};
ghost use Rattle.component_state.specs.Periods.{is_current};
ghost use Rattle.scr_readers.specs.ComponentViews.{bound_services, present_instance};
ghost use Rattle.scr_world.specs.Worlds.{sorted};
ghost use Rattle.scr_world.specs.declared.instance.Instance.{Instance};
ghost use Rattle.std.specs.Option.{option_copied};
ghost use Rattle.std.specs.Prelude.{◌≡◌, ◌==◌, ◌&&◌, IfOk, find};

use component_state::{OpenPeriod, is_current};
use prop_map::{OutOfMemory, Str};
use scr_dues::{OwnRows, sorted};
use scr_world::{Instance, World};
use std::alloc::Global;

/// The lowest living instance of the present period of a component configuration. It takes no memory.
pub(crate) fn present_instance(world: &World, configuration: u64) -> Option<&Instance>
    ensures { option_copied result ≡ present_instance world.now configuration }
{
    present_among(
        world.instances.as_slice(),
        world.open_periods.as_slice(),
        configuration,
    )
}

fn present_among<'w>(
    instances: &'w [Instance],
    periods: &[OpenPeriod],
    configuration: u64,
) -> Option<&'w Instance>
    ensures { option_copied result ≡ find (λ (i : Instance). (i.origin.configuration == configuration) && is_current periods.now i.origin) instances.now }
{
    instances.iter().find(|instance| instance.origin.get().configuration == configuration
        && is_current(periods, instance.origin.get()))
}

/// What an instance, if there is one, holds for the reference of a name, best first.
pub(crate) fn bound_services(
    alloc: Global,
    own: &OwnRows,
    world: &World,
    name: &Str,
    instance: Option<&Instance>,
) -> Result<Vec<u64>, OutOfMemory>
    ensures { IfOk result (λ v. v.items ≡ bound_services world.now name.now (option_copied instance.entry)) }
{
    match instance {
        Some(instance) => held_best_first(alloc, own, world, name, instance),
        None => Ok(Vec::new(alloc)),
    }
}

fn held_best_first(
    alloc: Global,
    own: &OwnRows,
    world: &World,
    name: &Str,
    instance: &Instance,
) -> Result<Vec<u64>, OutOfMemory>
    ensures { IfOk result (λ v. v.items ≡ sorted world.now (held_for name.now instance.now.callbacks)) }
{
    sorted(alloc, own, world, instance.callbacks.held(name))
}
