//! The revisions of services.
ghost use Rattle.component_state.specs.Rows.{rows_of};
ghost use Rattle.component_state.specs.declared.open_period.OpenPeriod.{OpenPeriod};
ghost use Rattle.scr_world.specs.Worlds.{revision_of};
ghost use Rattle.service_registry.specs.Registries.{row_of};
ghost use Rattle.service_registry.specs.declared.row.ServiceRow.{ServiceRow};
ghost use Rattle.std.specs.Option.{option_copied, option_map_or, option_or};
ghost use Rattle.std.specs.Prelude.{◌≡◌, ◌≢◌, ◌==◌, find};

use component_state::OpenPeriod;
use scr_world::World;
use service_registry::ServiceRow;

/// The revision of a service as it is or as it left, 0 where there was none. That of the platform's own service is 0.
pub(crate) fn revision_of(world: &World, service: u64) -> u64
    ensures { result ≡ revision_of world.now service }
{
    if service == 0 {
        return 0;
    }
    revision_in(
        world.registry.row(service),
        row_among(world.open_periods.as_slice(), service),
        row_in(world.unregistered_held.as_slice(), service),
    )
}

// The revision of the first row that is there.
fn revision_in(
    direct: Option<&ServiceRow>,
    open: Option<&ServiceRow>,
    held: Option<&ServiceRow>,
) -> u64
    ensures { result ≡ option_map_or (λ (r : ServiceRow). r.revision) (option_or (option_or (option_copied direct.entry) (option_copied open.entry)) (option_copied held.entry)) 0 }
{
    match (direct, open, held) {
        (Some(row), _, _) => row.revision,
        (None, Some(row), _) => row.revision,
        (None, None, Some(row)) => row.revision,
        (None, None, None) => 0,
    }
}

// The service of an open period.
fn row_among(periods: &[OpenPeriod], service: u64) -> Option<&ServiceRow>
    requires { service ≢ 0 }
    ensures { option_copied result ≡ row_of (rows_of periods.now) service }
{
    match period_with(periods, service) {
        Some(period) => Some(&period.row),
        None => None,
    }
}

fn period_with(periods: &[OpenPeriod], service: u64) -> Option<&OpenPeriod>
    ensures { option_copied result ≡ find (λ (p : OpenPeriod). p.row.id == service) periods.now }
{
    periods.iter().find(|period| period.row.id == service)
}

fn row_in(rows: &[ServiceRow], service: u64) -> Option<&ServiceRow>
    ensures { option_copied result ≡ row_of rows.now service }
{
    rows.iter().find(|row| row.id == service)
}
