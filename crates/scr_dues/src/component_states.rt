//! The state of a component configuration (OSGi Compendium 8, chapter 112, "ComponentConfigurationDTO").
ghost use Rattle.scr_world.specs.Readers.{has_active, state_by};
ghost use Rattle.std.specs.Prelude.{◌≡◌};

use component_state::{Component, is_open, lacks_configuration};
use prop_map::has;
use scr_world::{Instance, World};

// Whether an instance of the component configuration is active.
fn has_active(instances: &[Instance], configuration: u64) -> bool
    ensures { result ≡ has_active instances.now configuration }
{
    instances.iter().any(|instance| instance.origin.get().configuration == configuration
        && instance.is_active())
}

/// The state of a component configuration, the first that holds: 1 where it lacks a configuration, 2 where it isn't satisfied, 16
/// where it failed, 8 where it is open and an instance of it is active, else 4. The numbers of the satisfied ones are given, in
/// whatever order. It takes no memory.
pub fn state_of(world: &World, satisfied: &[u64], component: &Component) -> u8
    ensures { result ≡ state_by world.now satisfied.now component.now }
{
    let number = component.number;
    if lacks_configuration(component) {
        1
    } else if !has(satisfied, number) {
        2
    } else if has(world.failed.as_slice(), number) {
        16
    } else if is_open(world.open_periods.as_slice(), number)
        && has_active(world.instances.as_slice(), number)
    {
        8
    } else {
        4
    }
}
