//! The rows of gets, each found by its service and its bundle.
ghost use Rattle.row_places.specs.RowPlaces.{IsPlaceOrGap};
ghost use Rattle.std.specs.Prelude.{◌≡◌, ◌<◌, ◌≤◌, ◌==◌, ◌∷◌, [], filter, length, map, not, IfOk, MatchResult, OnErr, OnOk};
ghost use Rattle.use_counts.specs.Refusals.{AreOrdered};
ghost use Rattle.use_counts.specs.Uses.{bundles_using, is_use, no_use, use_cmp, use_of, without_service, without_uses_of};
ghost use Rattle.use_counts.specs.declared.uses.UseRow.{UseRow};

use crate::UseRow;
use crate::counting::no_use;
use prop_map::OutOfMemory;
use std::alloc::Global;
use std::cmp::Ordering;

/// Where the row of a bundle and a service stands, or the gap where it would stand.
pub(crate) fn place_of(rows: &[UseRow], bundle: u64, service: u64) -> Result<usize, usize>
    requires { AreOrdered rows.now }
    ensures place { IsPlaceOrGap (λ (u : UseRow). use_cmp u (no_use bundle service)) result rows.now }
    ensures within { MatchResult result (λ place. place < length rows.now) (λ gap. gap ≤ length rows.now) }
{
    rows.binary_search_by(|row| order(row, bundle, service))
}

// Where a row stands against that of a bundle and a service.
fn order(row: &UseRow, bundle: u64, service: u64) -> Ordering
    ensures { result ≡ use_cmp row.now (no_use bundle service) }
{
    row.service.cmp(&service).then(row.bundle.cmp(&bundle))
}

/// How a bundle uses a service.
pub(crate) fn use_of(rows: &[UseRow], bundle: u64, service: u64) -> UseRow
    requires { AreOrdered rows.now }
    ensures { result ≡ use_of bundle service rows.now }
{
    match place_of(rows, bundle, service) {
        Ok(place) => rows[place],
        Err(_) => no_use(bundle, service),
    }
}

/// The bundles that use a service, by number.
pub(crate) fn bundles_using(
    alloc: Global,
    rows: &[UseRow],
    service: u64,
) -> Result<Vec<u64>, OutOfMemory>
    ensures { IfOk result (λ bundles. bundles.items ≡ bundles_using service rows.now) }
{
    let mut bundles = Vec::new(alloc);
    for row in rows {
        if row.service == service {
            bundles.push(row.bundle)?;
        }
    }
    Ok(bundles)
}

/// The row of a bundle and a service, if it has one.
pub(crate) fn row_of(
    alloc: Global,
    rows: &[UseRow],
    bundle: u64,
    service: u64,
) -> Result<Vec<UseRow>, OutOfMemory>
    requires { AreOrdered rows.now }
    ensures { IfOk result (λ uses. uses.items ≡ filter (is_use bundle service) rows.now) }
{
    match place_of(rows, bundle, service) {
        Ok(place) => one_row(alloc, &rows[place]),
        Err(_) => Ok(Vec::new(alloc)),
    }
}

fn one_row(alloc: Global, row: &UseRow) -> Result<Vec<UseRow>, OutOfMemory>
    ensures { IfOk result (λ uses. uses.items ≡ row.now ∷ []) }
{
    let mut uses = Vec::new(alloc);
    uses.push(*row)?;
    Ok(uses)
}

/// The rows of a service.
pub(crate) fn rows_of_service(
    alloc: Global,
    rows: &[UseRow],
    service: u64,
) -> Result<Vec<UseRow>, OutOfMemory>
    ensures { IfOk result (λ uses. uses.items ≡ filter (λ (u : UseRow). u.service == service) rows.now) }
{
    let mut uses = Vec::new(alloc);
    for row in rows {
        if row.service == service {
            uses.push(*row)?;
        }
    }
    Ok(uses)
}

/// The rows of a bundle.
pub(crate) fn rows_of_bundle(
    alloc: Global,
    rows: &[UseRow],
    bundle: u64,
) -> Result<Vec<UseRow>, OutOfMemory>
    ensures { IfOk result (λ uses. uses.items ≡ filter (λ (u : UseRow). u.bundle == bundle) rows.now) }
{
    let mut uses = Vec::new(alloc);
    for row in rows {
        if row.bundle == bundle {
            uses.push(*row)?;
        }
    }
    Ok(uses)
}

/// Leaves out the gets of a service.
pub(crate) fn leave_service(rows: &mut Vec<UseRow>, service: u64)
    ensures { rows.new.items ≡ without_service service rows.old.items }
{
    rows.retain(|row| row.service != service);
}

/// Leaves out the gets of a bundle.
pub(crate) fn leave_bundle(rows: &mut Vec<UseRow>, bundle: u64)
    ensures { rows.new.items ≡ without_uses_of bundle rows.old.items }
{
    rows.retain(|row| row.bundle != bundle);
}
