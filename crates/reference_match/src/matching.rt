//! When a service meets a need (OSGi Compendium 8, chapter 112, target services).
ghost use Rattle.ldap_filter.specs.Matching.{matches};
ghost use Rattle.reference_match.specs.Targets.{meets};
ghost use Rattle.std.specs.Option.{option_map_or};
ghost use Rattle.std.specs.Prelude.{◌≡◌, true};

use crate::Need;
use ldap_filter::Filter;
use prop_map::Properties;
use service_registry::{ServiceRow, has_interface};

/// Whether a service meets a need: it has the interface and matches the filter, if there is one; a target that is no
/// filter nothing meets. It takes no memory.
pub fn meets(need: &Need, service: &ServiceRow) -> bool
    ensures { result ≡ meets need.now service.now }
{
    has_interface(need.interface.as_str(), service)
        && (!need.direct_only || service.direct)
        && !need.none
        && passes(&need.filter, &service.properties)
}

// Whether properties match a filter, if there is one.
fn passes(filter: &Option<Filter>, properties: &Properties) -> bool
    ensures { result ≡ option_map_or (λ tree. matches tree properties.now) filter.now true }
{
    match filter {
        Some(filter) => filter.matches(properties),
        None => true,
    }
}
