//! An instance that the beginning of a Create makes (OSGi Compendium 8, chapter 112, "Activation").
ghost use Rattle.callback_orders.specs.Sequences.{begun};
ghost use Rattle.callback_orders.specs.declared.callback.Callback.TheVariants.{Create};
ghost use Rattle.component_state.specs.Components.{properties_of};
ghost use Rattle.component_state.specs.Rows.{service_in};
ghost use Rattle.component_state.specs.declared.open_period.OpenPeriod.{OpenPeriod};
ghost use Rattle.scr_world.specs.Instances.{created_at};
ghost use Rattle.scr_world.specs.Stepping.{before_turn};
ghost use Rattle.std.specs.Option.{option_copied};
ghost use Rattle.std.specs.Prelude.{◌≡◌, ◌==◌, ◌≤◌, ◌∷◌, [], IfOk, find, length};

use crate::begins::properties_of;
use crate::slots::next_slot;
use callback_orders::Callback;
use component_state::{Choice, OpenPeriod, Origin};
use instance_callbacks::InstanceCallbacks;
use prop_map::{Copies, List, OutOfMemory, Properties, Shared};
use scr_world::{Instance, World};
use std::alloc::Global;
use told_revisions::ToldRevisions;

/// The instance that the beginning of a Create makes.
///
/// # Errors
/// Only want of memory.
pub(crate) fn created(
    alloc: Global,
    world: &World,
    turn: u64,
    instance: u64,
    configuration: u64,
    consumer: u64,
    chosen: &List<Choice>,
) -> Result<Instance, OutOfMemory>
    requires { length world.now.instances ≤ 66048 }
    ensures { IfOk result (λ i. i ≡ created_at (before_turn world.now) turn instance configuration consumer chosen.now) }
{
    Ok(Instance {
        number: instance,
        consumer,
        service: service_in(world.open_periods.as_slice(), configuration),
        slot: next_slot(world.instances.as_slice()),
        generation: 0,
        drained: false,
        turn,
        origin: origin_of(alloc, world, configuration, chosen)?,
        callbacks: create_begun(alloc)?,
        properties: taken(alloc, world, configuration)?,
        properties_taken_at: world.entries,
        told_revisions: ToldRevisions::new(alloc),
    })
}

fn origin_of(
    alloc: Global,
    world: &World,
    configuration: u64,
    chosen: &List<Choice>,
) -> Result<Shared<Origin>, OutOfMemory>
    ensures { IfOk result (λ o. o ≡ record { configuration = configuration; created = world.now.entries; chosen = chosen.now }) }
{
    let origin = Origin {
        configuration,
        created: world.entries,
        chosen: chosen.copy(alloc)?,
    };
    Shared::of(alloc, origin)
}

// The properties that an instance takes at its Create.
fn taken(
    alloc: Global,
    world: &World,
    configuration: u64,
) -> Result<Shared<Properties>, OutOfMemory>
    ensures { IfOk result (λ p. p ≡ properties_of world.now.components configuration) }
{
    let properties = properties_of(alloc, world.components.as_slice(), configuration)?;
    Shared::of(alloc, properties)
}

// The callbacks of an instance whose Create begins.
fn create_begun(alloc: Global) -> Result<InstanceCallbacks, OutOfMemory>
    ensures { IfOk result (λ callbacks. callbacks ≡ begun Create ∷ []) }
{
    let mut callbacks = InstanceCallbacks::new(alloc);
    callbacks.begin(alloc, Callback::Create)?;
    Ok(callbacks)
}

// The service of the open period of a component configuration, 0 where there is none.
fn service_in(periods: &[OpenPeriod], configuration: u64) -> u64
    ensures { result ≡ service_in periods.now configuration }
{
    match period_of(periods, configuration) {
        Some(period) => period.row.id,
        None => 0,
    }
}

fn period_of(periods: &[OpenPeriod], configuration: u64) -> Option<&OpenPeriod>
    ensures { option_copied result ≡ find (λ (p : OpenPeriod). p.configuration == configuration) periods.now }
{
    periods
        .iter()
        .find(|period| period.configuration == configuration)
}
