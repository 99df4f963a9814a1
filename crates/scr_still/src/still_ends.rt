//! Which ends of turns have no consequences (OSGi Compendium 8, chapter 112, "Activation", "Deactivation").
ghost use Rattle.scr_state.specs.Keeps.{IsKept};
ghost use Rattle.scr_still.specs.StillEnds.{are_still, ends_life, ends_still, fails_open, is_kept_beside, is_still_end, waits_for};
ghost use Rattle.std.specs.List.{list_any};
ghost use Rattle.std.specs.Prelude.{◌≡◌};

use bundle_life::{BundleLife, BundleState};
use callback_orders::Outcome;
use component_state::is_current;
use scr_consequences::keeps_bundle;
use scr_state::State;
use scr_world::{Instance, World, is_failed, last_is_activate, last_is_create, last_is_destroy};

/// Whether the end of a turn has no consequences: no pass closes or opens anything, and no bundle has stopped by it. So it is at
/// any end but that of a Create or an Activate without success in an open period, that of an instance whose component
/// configuration is satisfied, and that of the last instance for which a bundle waits. It takes no memory, and looks at the
/// instances, at the bundles where an instance ceases, and at the open periods and the numbers of the satisfied component
/// configurations once.
pub fn is_still_end(state: &State, turn: u64, outcome: Outcome) -> bool
    requires { IsKept state.now }
    ensures { result ≡ is_still_end turn outcome state.now.world }
{
    are_still(&state.world, state.satisfied.as_slice(), turn, outcome)
}

fn are_still(world: &World, satisfied: &[u64], turn: u64, outcome: Outcome) -> bool
    ensures { result ≡ are_still turn outcome world.now satisfied.now }
{
    world.instances.as_slice().iter().all(|instance| {
        !instance.has_turn(turn) || ends_still(world, satisfied, turn, outcome, instance)
    })
}

fn ends_still(
    world: &World,
    satisfied: &[u64],
    turn: u64,
    outcome: Outcome,
    instance: &Instance,
) -> bool
    ensures { result ≡ ends_still turn outcome world.now satisfied.now instance.now }
{
    !fails_open(world, outcome, instance)
        && (!ends_life(outcome, instance)
            || (!satisfied.contains(&instance.origin.get().configuration)
                && !is_waited_for(world, world.bundles.rows(), turn, instance)))
}

fn fails_open(world: &World, outcome: Outcome, instance: &Instance) -> bool
    ensures { result ≡ fails_open outcome world.now instance.now }
{
    let callbacks = &instance.callbacks;
    is_failed(Some(outcome))
        && ((last_is_create(callbacks) || last_is_activate(callbacks))
            && is_current(world.open_periods.as_slice(), instance.origin.get()))
}

fn ends_life(outcome: Outcome, instance: &Instance) -> bool
    ensures { result ≡ ends_life outcome instance.now }
{
    let callbacks = &instance.callbacks;
    last_is_destroy(callbacks) || (last_is_create(callbacks) && is_failed(Some(outcome)))
}

fn is_waited_for(world: &World, bundles: &[BundleLife], turn: u64, instance: &Instance) -> bool
    ensures { result ≡ list_any (waits_for world.now turn instance.now) bundles.now }
{
    bundles
        .iter()
        .any(|bundle| waits_for(world, turn, instance, bundle))
}

fn waits_for(world: &World, turn: u64, instance: &Instance, bundle: &BundleLife) -> bool
    ensures { result ≡ waits_for world.now turn instance.now bundle.now }
{
    bundle.state == BundleState::Stopping
        && (keeps_bundle(world.components.as_slice(), bundle.number, instance)
            && !is_kept_beside(world, turn, bundle.number))
}

fn is_kept_beside(world: &World, turn: u64, bundle: u64) -> bool
    ensures { result ≡ is_kept_beside world.now turn bundle }
{
    let components = world.components.as_slice();
    world.instances.as_slice().iter().any(|other| !other.has_turn(turn)
        && keeps_bundle(components, bundle, other))
}
