//! What an instance isn't told of yet (OSGi Compendium 8, chapter 112, "Updated Callback", "Modification").
ghost use Rattle.component_state.specs.declared.component.Component.{Component};
ghost use Rattle.scr_world.specs.Views.{awaits_modified, awaits_modified_by, is_changed};
ghost use Rattle.std.specs.Option.{option_copied, option_map_or};
ghost use Rattle.std.specs.Prelude.{◌≡◌, false};

use crate::own_rows::OwnRows;
use crate::services::revision_of;
use component_state::{Component, component_of};
use prop_map::Str;
use scr_world::{Instance, World};

/// Whether the properties of a service changed since an instance was told of it for a reference.
pub fn is_changed(
    own: &OwnRows,
    world: &World,
    instance: &Instance,
    reference: &Str,
    service: u64,
) -> bool
    ensures { result ≡ is_changed world.now instance.now reference.now service }
{
    let revision = revision_of(own, world, service);
    // What was told is looked for only where something could have changed.
    revision != 0 && instance.told_revisions.revision(reference, service) < revision
}

fn awaits_modified_by(instance: &Instance, component: Option<&Component>) -> bool
    ensures { result ≡ option_map_or (awaits_modified_by instance.now) (option_copied component.entry) false }
{
    match component {
        Some(component) => match component.changed {
            Some(place) => instance.properties_taken_at < place,
            None => false,
        },
        None => false,
    }
}

/// Whether the properties of an instance's component configuration changed since it took them. It takes no memory.
pub fn awaits_modified(world: &World, instance: &Instance) -> bool
    ensures { result ≡ awaits_modified world.now instance.now }
{
    let components = world.components.as_slice();
    awaits_modified_by(
        instance,
        component_of(components, instance.origin.get().configuration),
    )
}
