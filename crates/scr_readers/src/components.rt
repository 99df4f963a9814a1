//! Component configurations and their states (OSGi Compendium 8, chapter 112, "ComponentConfigurationDTO").
ghost use Rattle.component_state.specs.Components.{existing};
ghost use Rattle.prop_map.specs.Words.{has};
ghost use Rattle.scr_world.specs.Readers.{component_lines, line_by};
ghost use Rattle.scr_world.specs.Worlds.{satisfied_in};
ghost use Rattle.std.specs.Prelude.{◌≡◌, ℕ, IfOk, map};

use component_state::Component;
use prop_map::{Copies, List, OutOfMemory};
use scr_dues::state_of;
use scr_world::{ComponentLine, World};
use std::alloc::Global;

/// The component configurations that haven't ceased with their states, by number. The numbers of the satisfied ones are
/// given, in whatever order.
///
/// # Errors
/// Only want of memory.
pub fn component_lines(
    alloc: Global,
    world: &World,
    satisfied: &[u64],
) -> Result<List<ComponentLine>, OutOfMemory>
    requires { (number : ℕ) → has satisfied.now number ≡ has (satisfied_in world.now) number }
    ensures { IfOk result (λ lines. lines ≡ component_lines world.now) }
{
    let lines = lines_of(alloc, world, satisfied)?;
    Ok(lines)
}

fn lines_of(
    alloc: Global,
    world: &World,
    satisfied: &[u64],
) -> Result<List<ComponentLine>, OutOfMemory>
    ensures { IfOk result (λ lines. lines ≡ map (line_by world.now satisfied.now) (existing world.now.components)) }
{
    let mut lines = Vec::new(alloc);
    for component in world.components.as_slice() {
        if component.exists {
            lines.push(line_of(alloc, world, satisfied, component)?)?;
        }
    }
    Ok(List::of(lines))
}

fn line_of(
    alloc: Global,
    world: &World,
    satisfied: &[u64],
    component: &Component,
) -> Result<ComponentLine, OutOfMemory>
    ensures { IfOk result (λ line. line ≡ line_by world.now satisfied.now component.now) }
{
    Ok(ComponentLine {
        configuration: component.number,
        name: component.description.get().name.copy(alloc)?,
        state: state_of(world, satisfied, component),
    })
}
