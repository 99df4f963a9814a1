//! The revisions that were told last of the services of one reference, by service.
ghost use Rattle.row_places.specs.RowPlaces.{IsPlaceOrGap};
ghost use Rattle.std.specs.Ordering.{nat_cmp};
ghost use Rattle.std.specs.Prelude.{◌≡◌, ◌==◌, ◌<◌, ◌≤◌, ℕ, IfOk, MatchResult, filter, length, not, if◌then◌else◌};
ghost use Rattle.told_revisions.specs.Services.{AreByService, revision_of, with_service, without_service};
ghost use Rattle.told_revisions.specs.declared.services.ServiceRevision.{ServiceRevision};

use prop_map::{List, OutOfMemory, Shared};
use std::alloc::Global;

/// A service, and its revision that was told last.
#[derive(Clone, Copy)]
pub(crate) struct ServiceRevision {
    pub(crate) service: u64,
    pub(crate) revision: u64,
}

/// The rows of a reference, in the order of their services, shared between copies.
pub(crate) type Services = Shared<List<ServiceRevision>>;

/// Rows, to be shared.
///
/// # Errors
/// Only want of memory.
pub(crate) fn shared(alloc: Global, rows: Vec<ServiceRevision>) -> Result<Services, OutOfMemory>
    ensures { IfOk result (λ services. services ≡ rows.items) }
{
    Shared::of(alloc, List::of(rows))
}

/// The revision that was told of a service, 0 where none was. It is found by halving.
pub(crate) fn revision_of(rows: &[ServiceRevision], service: u64) -> u64
    requires { AreByService rows.now }
    ensures { result ≡ revision_of rows.now service }
{
    match place_of(rows, service) {
        Ok(place) => rows[place].revision,
        Err(_) => 0,
    }
}

// Where a service's row stands, or the gap where it would stand.
fn place_of(rows: &[ServiceRevision], service: u64) -> Result<usize, usize>
    requires { AreByService rows.now }
    ensures place { IsPlaceOrGap (λ (r : ServiceRevision). nat_cmp r.service service) result rows.now }
    ensures within { MatchResult result (λ place. place < length rows.now) (λ gap. gap ≤ length rows.now) }
{
    rows.binary_search_by(|row| row.service.cmp(&service))
}

/// The rows with one of a service, in the place of its row if it has one.
///
/// # Errors
/// Only want of memory.
pub(crate) fn with_service(
    alloc: Global,
    rows: &[ServiceRevision],
    row: ServiceRevision,
) -> Result<Vec<ServiceRevision>, OutOfMemory>
    requires { AreByService rows.now }
    ensures { IfOk result (λ v. v.items ≡ with_service row rows.now) }
{
    let mut changed = Vec::from_slice(alloc, rows)?;
    match place_of(rows, row.service) {
        Ok(place) => changed[place] = row,
        Err(gap) => changed.insert(gap, row)?,
    }
    Ok(changed)
}

/// The rows without a service's.
///
/// # Errors
/// Only want of memory.
pub(crate) fn without_service(
    alloc: Global,
    rows: &[ServiceRevision],
    service: u64,
) -> Result<Vec<ServiceRevision>, OutOfMemory>
    ensures { IfOk result (λ v. v.items ≡ without_service service rows.now) }
{
    let left = rows.iter().copied();
    Ok(left.filter(|row| row.service != service).collect(alloc)?)
}
