//! Component configurations and their open periods: which there are to be, what is satisfied, evaluated from scratch,
//! and the pass that closes and opens after each entry of the journal (OSGi Compendium 8, chapter 112).
#![tactic(auto)]

mod choices;
mod component;
mod component_configurations;
mod component_rows;
mod component_states;
mod components;
mod instance_lives;
mod living_instance;
mod marks;
mod number_lists;
mod one_pass;
mod open_marks;
mod open_period;
mod origin;
mod pass;
mod pass_order;
mod pass_steps;
mod periods;
mod plain_passes;
mod present_properties;
mod reasons;
mod rows;
mod satisfaction;
mod saved_states;
mod service_rows;
mod stage;

pub use choices::choice_at;
pub use component::Component;
pub use component_configurations::{
    BundleView, ComponentView, are_more_than, components_for_bundles, configurations_of,
};
pub use component_rows::components_after;
pub use component_states::ComponentStates;
pub use components::{component_of, existing_of, exists, lacks_configuration, needs_of};
pub use living_instance::LivingInstance;
pub use marks::failed_after;
pub use one_pass::{note_one_pass, note_some_pass};
pub use open_period::OpenPeriod;
pub use origin::{Choice, Origin};
pub use pass::{Passed, pass_over};
pub use periods::{is_current, is_open};
pub use plain_passes::{PassEnd, plain_pass};
pub use present_properties::with_present_properties;
pub use rows::{BundleRow, ComponentRow, WorldRows};
pub use saved_states::SavedStates;
pub use service_rows::published_by;
pub use stage::Stage;
