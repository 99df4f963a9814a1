//! Component configurations by number, that of the whiteboard too, and what instances have of theirs (OSGi Compendium 8,
//! chapter 112, "Component Description", "Component Properties").
ghost use Rattle.component_state.specs.Components.{component_of};
ghost use Rattle.component_state.specs.declared.component.Component.{Component};
ghost use Rattle.scr_world.specs.Views.{bundle_of_instance, properties_in, references_in};
ghost use Rattle.scr_world.specs.Whiteboard.{component_in};
ghost use Rattle.std.specs.Option.{option_copied, option_map_or};
ghost use Rattle.std.specs.Prelude.{◌≡◌, []};

use crate::own_rows::OwnRows;
use component_dto::Reference;
use component_state::{Component, component_of};
use prop_map::Property;
use scr_world::{Instance, World};

/// The component configuration of a number, that of the whiteboard too.
pub fn component_in<'a>(
    own: &'a OwnRows,
    components: &'a [Component],
    number: u64,
) -> Option<&'a Component>
    ensures { option_copied result ≡ component_in components.now number }
{
    let whiteboard = own.whiteboard();
    if whiteboard.number == number {
        Some(whiteboard)
    } else {
        component_of(components, number)
    }
}

fn references_by(component: Option<&Component>) -> &[Reference]
    ensures { result.now ≡ option_map_or (λ (c : Component). c.description.references) (option_copied component.entry) [] }
{
    match component {
        Some(component) => component.description.get().references.as_slice(),
        None => &[],
    }
}

/// The references of an instance, in the order of its description.
pub fn references_in<'a>(own: &'a OwnRows, world: &'a World, instance: &Instance) -> &'a [Reference]
    ensures { result.now ≡ references_in world.now instance.now }
{
    let components = world.components.as_slice();
    references_by(component_in(own, components, instance.origin.get().configuration))
}
