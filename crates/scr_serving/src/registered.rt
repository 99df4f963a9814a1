//! A command for a service that has to be registered (OSGi Core 8, chapter 5, "Service Registry").
ghost use Rattle.component_state.specs.declared.open_period.OpenPeriod.{OpenPeriod};
ghost use Rattle.scr_world.specs.Refusals.{no_service};
ghost use Rattle.scr_world.specs.Worlds.{is_registered};
ghost use Rattle.service_registry.specs.Registries.{row_of};
ghost use Rattle.std.specs.List.{list_any};
ghost use Rattle.std.specs.Prelude.{◌≡◌, ◌≢◌, ◌==◌, is_some};

use component_state::OpenPeriod;
use scr_world::{CoreFault, World};
use service_registry::Registry;

/// Why it is refused for a service that isn't registered. The platform's own counts as none.
pub(crate) fn refusal_of_unregistered(world: &World, service: u64) -> Option<CoreFault>
    ensures { result ≡ no_service world.now service }
{
    if service != 0 && is_registered(world, service) {
        return None;
    }
    Some(CoreFault::NoService { service })
}

// Whether a service but the platform's own is registered.
fn is_registered(world: &World, service: u64) -> bool
    requires { service ≢ 0 }
    ensures { result ≡ is_registered world.now service }
{
    is_direct(&world.registry, service) || is_open(world.open_periods.as_slice(), service)
}

fn is_direct(registry: &Registry, service: u64) -> bool
    ensures { result ≡ is_some (row_of registry.now.rows service) }
{
    registry.row(service).is_some()
}

// Whether it is the service of an open period.
fn is_open(periods: &[OpenPeriod], service: u64) -> bool
    ensures { result ≡ list_any (λ (p : OpenPeriod). p.row.id == service) periods.now }
{
    periods.iter().any(|period| period.row.id == service)
}
