//! What was told last, by reference.
ghost use Rattle.std.specs.Prelude.{◌≡◌, ◌&&◌, ◌==◌, ℕ, List, IfOk, if◌then◌else◌};
ghost use Rattle.std.specs.Str.{bytes_eq};
ghost use Rattle.told_revisions.specs.Services.{AreOrdered, revision_of, services_in};

use crate::services::{ServiceRevision, Services, shared, with_service, without_service};
use prop_map::{Copies, OutOfMemory, Str};
use shared_map::SharedMap;
use std::alloc::Global;

/// The rows of each reference, by service.
pub(crate) type Latest = SharedMap<Services>;

/// The rows of a reference, none where it has none.
pub(crate) fn services_of<'a>(latest: &'a Latest, reference: &Str) -> &'a [ServiceRevision]
    ensures { result.now ≡ services_in reference.now latest.now }
{
    match latest.value(reference.as_str()) {
        Some(services) => services.get().as_slice(),
        None => &[],
    }
}

/// The rows with one more of a reference, in the place of its service's row if it has one.
///
/// # Errors
/// Only want of memory.
pub(crate) fn with_row(
    alloc: Global,
    latest: &Latest,
    reference: &Str,
    row: ServiceRevision,
) -> Result<Latest, OutOfMemory>
    requires { AreOrdered latest.now }
    ensures order { IfOk result (λ changed. AreOrdered changed) }
    ensures revisions { IfOk result (λ changed. (name : List ℕ) → (service : ℕ) → revision_of (services_in name changed) service ≡ (if bytes_eq reference.now name && (row.service == service) then row.revision else revision_of (services_in name latest.now) service)) }
{
    let services = with_service(alloc, services_of(latest, reference), row)?;
    with_services(alloc, latest, reference, shared(alloc, services)?)
}

/// The rows without that of a service for a reference.
///
/// # Errors
/// Only want of memory.
pub(crate) fn without_row(
    alloc: Global,
    latest: &Latest,
    reference: &Str,
    service: u64,
) -> Result<Latest, OutOfMemory>
    requires { AreOrdered latest.now }
    ensures order { IfOk result (λ changed. AreOrdered changed) }
    ensures revisions { IfOk result (λ changed. (name : List ℕ) → (other : ℕ) → revision_of (services_in name changed) other ≡ (if bytes_eq reference.now name && (service == other) then 0 else revision_of (services_in name latest.now) other)) }
{
    let services = without_service(alloc, services_of(latest, reference), service)?;
    with_services(alloc, latest, reference, shared(alloc, services)?)
}

fn with_services(
    alloc: Global,
    latest: &Latest,
    reference: &Str,
    services: Services,
) -> Result<Latest, OutOfMemory>
    ensures { IfOk result (λ changed. (name : List ℕ) → services_in name changed ≡ (if bytes_eq reference.now name then services else services_in name latest.now)) }
{
    let mut changed = latest.copy(alloc)?;
    changed.set(alloc, reference.copy(alloc)?, services)?;
    Ok(changed)
}
