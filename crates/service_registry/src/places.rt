//! Where the service of a number stands among the rows.
ghost use Rattle.row_places.specs.RowPlaces.{IsOnlyPlace, IsPlaceOrGap, OnlyAt};
ghost use Rattle.service_registry.specs.Registries.{has_number, refusal_for, row_of};
ghost use Rattle.service_registry.specs.declared.row.ServiceRow.{ServiceRow};
ghost use Rattle.std.specs.List.{All, AllPairs};
ghost use Rattle.std.specs.Ordering.{nat_cmp};
ghost use Rattle.std.specs.Prelude.{◌≡◌, ◌<◌, ◌≤◌, ℕ, length, IfErr, IfOk, IfSome};
ghost use Rattle.std.specs.Result.{result_err};

use crate::{RegistryFault, ServiceRow};

/// The place of the service of a number. Rows stand by ascending number, so it is found by halving.
pub(crate) fn place_of(rows: &[ServiceRow], service: u64) -> Option<usize>
    requires { AllPairs (λ (a b : ServiceRow). a.id < b.id) rows.now }
    ensures only { IsOnlyPlace (has_number service) result rows.now }
    ensures within { IfSome result (λ place. place < length rows.now) }
{
    rows.binary_search_by(|row| row.id.cmp(&service)).ok()
}

/// The place of the service of a number, or the gap where it would stand.
pub(crate) fn place_or_gap(rows: &[ServiceRow], service: u64) -> Result<usize, usize>
    requires { AllPairs (λ (a b : ServiceRow). a.id < b.id) rows.now }
    ensures place { IsPlaceOrGap (λ (r : ServiceRow). nat_cmp r.id service) result rows.now }
    ensures within { IfErr result (λ gap. gap ≤ length rows.now) }
{
    rows.binary_search_by(|row| row.id.cmp(&service))
}

/// The place of a bundle's service.
pub(crate) fn own_place(
    rows: &[ServiceRow],
    bundle: u64,
    service: u64,
) -> Result<usize, RegistryFault>
    requires { AllPairs (λ (a b : ServiceRow). a.id < b.id) rows.now }
    ensures refused { result_err result ≡ refusal_for bundle service (row_of rows.now service) }
    ensures only { IfOk result (λ place. OnlyAt (has_number service) place rows.now) }
    ensures within { IfOk result (λ place. place < length rows.now) }
{
    match place_of(rows, service) {
        Some(place) => {
            let owner = rows[place].bundle;
            if owner == bundle {
                Ok(place)
            } else {
                Err(RegistryFault::NotOwner { owner })
            }
        }
        None => Err(RegistryFault::NoService { service }),
    }
}

/// The highest number of the rows, 0 without rows.
pub(crate) fn highest_number(rows: &[ServiceRow]) -> u64
    requires { AllPairs (λ (a b : ServiceRow). a.id < b.id) rows.now }
    ensures all { All (λ (r : ServiceRow). r.id ≤ result) rows.now }
    ensures least { (number : ℕ) → All (λ (r : ServiceRow). r.id ≤ number) rows.now → result ≤ number }
{
    match rows.last() {
        Some(row) => row.id,
        None => 0,
    }
}
