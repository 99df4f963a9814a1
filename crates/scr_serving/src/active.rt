//! A command that a bundle has to be ACTIVE for (OSGi Core 8, chapter 4, "Bundle State").
ghost use Rattle.bundle_life.specs.Lives.{is_active, state_number};
ghost use Rattle.prop_map.specs.Words.{first_some};
ghost use Rattle.scr_world.specs.Refusals.{no_bundle, not_active, refuse_if};
ghost use Rattle.scr_world.specs.declared.reply.CoreFault.TheVariants.{WrongState};
ghost use Rattle.std.specs.Prelude.{◌≡◌, ◌∷◌, [], not};

use bundle_life::BundleState;
use scr_world::{CoreFault, World};

/// Why it is refused for a bundle that isn't there, or isn't ACTIVE.
pub(crate) fn refusal_of_inactive(world: &World, bundle: u64) -> Option<CoreFault>
    ensures { result ≡ first_some (no_bundle world.now bundle ∷ not_active world.now bundle ∷ []) }
{
    match world.bundles.state_of(bundle) {
        Some(state) => refusal_in(state),
        None => Some(CoreFault::NoBundle { bundle }),
    }
}

fn refusal_in(state: BundleState) -> Option<CoreFault>
    ensures { result ≡ refuse_if (not (is_active state)) (WrongState (state_number state)) }
{
    match state {
        BundleState::Active => None,
        BundleState::Installed | BundleState::Resolved | BundleState::Stopping => {
            Some(CoreFault::WrongState {
                state: state.number(),
            })
        }
    }
}
