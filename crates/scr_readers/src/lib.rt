//! What a platform tells of its world, without changing it: bundles and services, component configurations, and each of them
//! whole (OSGi Compendium 8, chapter 112, "ComponentConfigurationDTO"), what is held, what listeners were told, and whom a
//! call reaches.
#![tactic(auto)]

mod best_held;
mod board;
mod bound_services;
mod bundles;
mod calls;
mod calls_at;
mod component_details;
mod component_views;
mod components;
mod counting;
mod described;
mod detail_views;
mod events;
mod failures;
mod held;
mod instances;
mod listed_component;
mod listings;
mod live;
mod numbered_services;
mod reference_details;
mod reference_states;
mod service_view;
mod service_views;
mod services;
mod target_texts;
mod turn_lines;
mod view;

pub use board::changes_board;
pub use bundles::{bundle_events_after, bundle_lines};
pub use calls::{active, nested, outer};
pub use calls_at::{active_at, nested_at, outer_at};
pub use component_details::{ComponentDetails, ReferenceDetails};
pub use component_views::component;
pub use components::component_lines;
pub use counting::counting_numbers;
pub use described::described_numbers;
pub use detail_views::details;
pub use events::events_after;
pub use held::{held_lines, held_rows, held_services};
pub use instances::ending;
pub use listed_component::ListedComponent;
pub use listings::listed_components;
pub use live::{Inward, InwardAt, Live, LiveAt, Outer, OuterAt};
pub use service_view::{ServiceHolder, ServiceUse, ServiceView};
pub use service_views::service;
pub use services::{find_services, service_lines, services_by_number};
pub use turn_lines::{end_turn, note_turn_lines, turns_above};
pub use view::{ComponentView, ReferenceState};
