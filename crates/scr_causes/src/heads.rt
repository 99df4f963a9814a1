//! How component configurations stand (OSGi Compendium 8, chapter 112, "ComponentConfigurationDTO").
ghost use Rattle.component_state.specs.Components.{existing_of};
ghost use Rattle.prop_map.specs.Words.{has};
ghost use Rattle.scr_causes.specs.Standings.{component_head, head_by, standing_in};
ghost use Rattle.scr_world.specs.Worlds.{satisfied_in};
ghost use Rattle.std.specs.Prelude.{◌≡◌, ℕ, IfOk, option_map};

use crate::failed::failed_standing;
use crate::standings::satisfied_standing;
use component_causes::{ComponentHead, Standing};
use component_state::{Component, existing_of};
use prop_map::{Copies, OutOfMemory};
use scr_dues::{OwnRows, state_of};
use scr_world::{TurnLine, World};
use std::alloc::Global;

/// The component configuration of a number with how it stands, where these are the turns of the journal: `None` exactly
/// where there is none, or it has ceased. The numbers of the satisfied ones are given, in whatever order.
///
/// # Errors
/// Only want of memory.
pub fn component_head(
    alloc: Global,
    own: &OwnRows,
    world: &World,
    turns: &[TurnLine],
    satisfied: &[u64],
    configuration: u64,
) -> Result<Option<ComponentHead>, OutOfMemory>
    requires { (number : ℕ) → has satisfied.now number ≡ has (satisfied_in world.now) number }
    ensures { IfOk result (λ head. head ≡ component_head world.now turns.now configuration) }
{
    let head = head_among(alloc, own, world, turns, satisfied, configuration)?;
    Ok(head)
}

fn head_among(
    alloc: Global,
    own: &OwnRows,
    world: &World,
    turns: &[TurnLine],
    satisfied: &[u64],
    configuration: u64,
) -> Result<Option<ComponentHead>, OutOfMemory>
    ensures { IfOk result (λ head. head ≡ option_map (head_by world.now turns.now satisfied.now) (existing_of world.now.components configuration)) }
{
    match existing_of(world.components.as_slice(), configuration) {
        Some(component) => Ok(Some(head_by(alloc, own, world, turns, satisfied, component)?)),
        None => Ok(None),
    }
}

/// A component configuration with how it stands, where these are the turns of the journal and these the satisfied ones, in
/// whatever order.
///
/// # Errors
/// Only want of memory.
pub fn head_by(
    alloc: Global,
    own: &OwnRows,
    world: &World,
    turns: &[TurnLine],
    satisfied: &[u64],
    component: &Component,
) -> Result<ComponentHead, OutOfMemory>
    ensures { IfOk result (λ head. head ≡ head_by world.now turns.now satisfied.now component.now) }
{
    let state = state_of(world, satisfied, component);
    let standing = standing_in(alloc, own, world, turns, state, component)?;
    Ok(ComponentHead {
        number: component.number,
        name: component.description.get().name.copy(alloc)?,
        state,
        standing,
    })
}

fn standing_in(
    alloc: Global,
    own: &OwnRows,
    world: &World,
    turns: &[TurnLine],
    state: u8,
    component: &Component,
) -> Result<Option<Standing>, OutOfMemory>
    ensures { IfOk result (λ standing. standing ≡ standing_in world.now turns.now state component.now) }
{
    if state == 16 {
        failed_standing(alloc, world, turns, component)
    } else if state == 4 {
        satisfied_standing(alloc, own, world, component)
    } else {
        Ok(None)
    }
}
