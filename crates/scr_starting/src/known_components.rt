//! The components of a bundle by name, and why a command of one is refused (OSGi Compendium 8, chapter 112, "Enabled"; which
//! refusals come is our own).
ghost use Rattle.bundle_life.specs.Lives.{is_active};
ghost use Rattle.component_dto.specs.declared.description.Description.{Description};
ghost use Rattle.prop_map.specs.Words.{first_some};
ghost use Rattle.scr_starting.specs.Enabled.{is_all_enabled, stays_enabled};
ghost use Rattle.scr_world.specs.Refusals.{no_bundle, no_component, not_active};
ghost use Rattle.scr_world.specs.Replies.{is_enabled};
ghost use Rattle.scr_world.specs.Tables.{contents_of};
ghost use Rattle.scr_world.specs.declared.contents.Contents.{Contents};
ghost use Rattle.scr_world.specs.declared.reply.CoreFault.TheVariants.{NoComponent};
ghost use Rattle.std.specs.List.{list_all, list_any};
ghost use Rattle.std.specs.Option.{option_copied, option_map_or};
ghost use Rattle.std.specs.Prelude.{◌≡◌, [], ◌∷◌, false, IfOk, OnErr, Some};
ghost use Rattle.std.specs.Str.{bytes_eq};

use crate::enabled_flags::{are_enabled, flag_of, has_component};
use bundle_life::BundleState;
use prop_map::{Copies, OutOfMemory, Str};
use scr_state::State;
use scr_world::{Contents, CoreFault, World};
use std::alloc::Global;

/// Why a command of a component is refused: `NoBundle` where the bundle isn't installed, `WrongState` where it isn't ACTIVE,
/// `NoComponent` where it has no component of this name. None where it isn't.
///
/// # Errors
/// Only want of memory.
pub(crate) fn component_refusal(
    alloc: Global,
    state: &State,
    bundle: u64,
    name: &Str,
) -> Result<Option<CoreFault>, OutOfMemory>
    ensures ok { IfOk result (λ refusal. refusal ≡ first_some (no_bundle state.now.world bundle ∷ not_active state.now.world bundle ∷ no_component state.now.world bundle name.now ∷ [])) }
    ensures err { OnErr result (first_some (no_bundle state.now.world bundle ∷ not_active state.now.world bundle ∷ no_component state.now.world bundle name.now ∷ []) ≡ Some (NoComponent name.now)) }
{
    match state.world.bundles.state_of(bundle) {
        None => Ok(Some(CoreFault::NoBundle { bundle })),
        Some(now) => {
            if !is_active_state(now) {
                return Ok(Some(CoreFault::WrongState {
                    state: now.number(),
                }));
            }
            unknown_component(alloc, &state.world, bundle, name)
        }
    }
}

/// Whether a state is ACTIVE.
pub(crate) fn is_active_state(state: BundleState) -> bool
    ensures { result ≡ is_active state }
{
    matches!(state, BundleState::Active)
}

fn unknown_component(
    alloc: Global,
    world: &World,
    bundle: u64,
    name: &Str,
) -> Result<Option<CoreFault>, OutOfMemory>
    ensures ok { IfOk result (λ refusal. refusal ≡ no_component world.now bundle name.now) }
    ensures err { OnErr result (no_component world.now bundle name.now ≡ Some (NoComponent name.now)) }
{
    if is_known(world.documents.as_slice(), bundle, name) {
        return Ok(None);
    }
    Ok(Some(CoreFault::NoComponent {
        name: name.copy(alloc)?,
    }))
}

fn is_known(documents: &[Contents], bundle: u64, name: &Str) -> bool
    ensures { result ≡ option_map_or (λ (c : Contents). list_any (λ (d : Description). bytes_eq d.name name.now) c.document.descriptions) (contents_of documents.now bundle) false }
{
    match contents_of(documents, bundle) {
        Some(contents) => has_component(contents.document.get().descriptions.as_slice(), name),
        None => false,
    }
}

fn contents_of(documents: &[Contents], bundle: u64) -> Option<&Contents>
    ensures { option_copied result ≡ contents_of documents.now bundle }
{
    documents.iter().find(|contents| contents.bundle == bundle)
}

/// Whether the component of this name is enabled. It takes no memory.
pub(crate) fn is_enabled(world: &World, bundle: u64, name: &Str) -> bool
    ensures { result ≡ is_enabled world.now bundle name.now }
{
    match contents_of(world.documents.as_slice(), bundle) {
        Some(contents) => flag_of(
            contents.document.get().descriptions.as_slice(),
            contents.enabled.as_slice(),
            name,
        ),
        None => false,
    }
}

/// Whether the component of this name is enabled, and no description of this name is left to enable, as one may be where two
/// have it. It takes no memory.
pub(crate) fn is_all_enabled(world: &World, bundle: u64, name: &Str) -> bool
    ensures { result ≡ is_all_enabled world.now bundle name.now }
{
    is_enabled(world, bundle, name) && all_stay_enabled(world.documents.as_slice(), bundle, name)
}

fn all_stay_enabled(documents: &[Contents], bundle: u64, name: &Str) -> bool
    ensures { result ≡ list_all (stays_enabled bundle name.now) documents.now }
{
    documents
        .iter()
        .all(|contents| stays_enabled(contents, bundle, name))
}

fn stays_enabled(contents: &Contents, bundle: u64, name: &Str) -> bool
    ensures { result ≡ stays_enabled bundle name.now contents.now }
{
    contents.bundle != bundle
        || are_enabled(
            contents.document.get().descriptions.as_slice(),
            contents.enabled.as_slice(),
            name,
        )
}
