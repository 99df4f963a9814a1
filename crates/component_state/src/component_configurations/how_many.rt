//! Whether there are to be more component configurations than a number. A document may bring far more descriptions, and
//! a factory more configurations, than there may be component configurations, so this is asked before they are made.
ghost use Rattle.component_state.specs.ComponentConfigurations.{component_configurations, components_for_bundle, components_for_descriptions};
ghost use Rattle.component_state.specs.Inside.HowMany.{LeavesRoom, how_many_for, how_many_of};
ghost use Rattle.std.specs.Option.{option_copied};
ghost use Rattle.std.specs.Prelude.{◌≡◌, if◌then◌else◌, length, nat_lt};

use super::bundle_view::BundleView;
use super::configuration_index::ConfigurationIndex;
use super::counting::factory_of;
use component_dto::{ConfigurationPolicy, Description};
use config_admin::Configuration;
use prop_map::Str;

/// Whether there are to be more component configurations than a number. It makes none of them, looks no further than
/// that number, and takes no memory.
pub fn are_more_than(
    most: usize,
    bundles: &[BundleView<'_>],
    configurations: &[Configuration],
) -> bool
    ensures { result ≡ nat_lt most (length (component_configurations bundles.now configurations.now)) }
{
    let index = ConfigurationIndex::of(configurations);
    room_after_bundles(most, bundles, &index).is_none()
}

fn room_after_bundles(
    room: usize,
    bundles: &[BundleView<'_>],
    configurations: &ConfigurationIndex<'_>,
) -> Option<usize>
    ensures { LeavesRoom room (length (component_configurations bundles.now configurations.now)) result }
{
    let mut room = room;
    for bundle in bundles {
        room = room_after_bundle(room, bundle, configurations)?;
    }
    Some(room)
}

fn room_after_bundle(
    room: usize,
    bundle: &BundleView<'_>,
    configurations: &ConfigurationIndex<'_>,
) -> Option<usize>
    ensures { LeavesRoom room (length (components_for_bundle configurations.now bundle.now)) result }
{
    if bundle.is_active_bundle() {
        room_after_enabled(room, bundle, configurations)
    } else {
        Some(room)
    }
}

fn room_after_enabled(
    room: usize,
    bundle: &BundleView<'_>,
    configurations: &ConfigurationIndex<'_>,
) -> Option<usize>
    ensures { LeavesRoom room (length (components_for_descriptions bundle.now configurations.now 0 bundle.now.descriptions bundle.now.enabled)) result }
{
    let descriptions = bundle.descriptions();
    let enabled = bundle.enabled();
    let count = descriptions.len().min(enabled.len());
    let mut room = room;
    for index in 0..count {
        let description = &descriptions[index];
        room = room_after_one(room, description, enabled[index], configurations)?;
    }
    Some(room)
}

fn room_after_one(
    room: usize,
    description: &Description,
    enabled: bool,
    configurations: &ConfigurationIndex<'_>,
) -> Option<usize>
    ensures { LeavesRoom room (if enabled then how_many_for configurations.now description.now description.now.configuration_policy else 0) result }
{
    if enabled {
        room.checked_sub(how_many_for(description, configurations))
    } else {
        Some(room)
    }
}

fn how_many_for(description: &Description, configurations: &ConfigurationIndex<'_>) -> usize
    ensures { result ≡ how_many_for configurations.now description.now description.now.configuration_policy }
{
    match description.configuration_policy {
        ConfigurationPolicy::Ignore => 1,
        ConfigurationPolicy::Optional | ConfigurationPolicy::Require => {
            let pids = description.configuration_pids.as_slice();
            how_many_of(factory_of(configurations, pids), configurations)
        }
    }
}

fn how_many_of(factory: Option<&Str>, configurations: &ConfigurationIndex<'_>) -> usize
    ensures { result ≡ how_many_of configurations.now (option_copied factory.entry) }
{
    match factory {
        Some(factory) => configurations.count_of_factory(factory.as_str()),
        None => 1,
    }
}
