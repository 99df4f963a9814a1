//! Rows as a registration or a change of properties makes them.
ghost use Rattle.service_registry.specs.Registries.{new_row, set_row};
ghost use Rattle.std.specs.Prelude.{◌≡◌, IfOk};

use crate::service_properties::{copied, scope_of, with_service_properties};
use crate::{Interfaces, ServiceRow};
use prop_map::{Copies, OutOfMemory, Properties, Str};
use std::alloc::{AllocError, Global};

// The row of a service that a bundle registers under a number.
pub(crate) fn new_row(
    alloc: Global,
    service: u64,
    bundle: u64,
    interfaces: &[Str],
    scope: &str,
    given: Properties,
    direct: bool,
) -> Result<ServiceRow, OutOfMemory>
    ensures { IfOk result (λ row. row ≡ new_row service bundle interfaces.now scope.now given direct) }
{
    let properties = with_service_properties(alloc, service, bundle, interfaces, scope, given)?;
    Ok(ServiceRow {
        id: service,
        bundle,
        interfaces: Interfaces::of(alloc, copied(alloc, interfaces)?)?,
        properties,
        revision: 0,
        direct,
    })
}

// The row with other properties.
pub(crate) fn set_row(
    alloc: Global,
    row: &ServiceRow,
    given: Properties,
) -> Result<ServiceRow, OutOfMemory>
    ensures { IfOk result (λ after. after ≡ set_row given row.now) }
{
    let revision = row.revision.checked_add(1).ok_or(AllocError)?;
    let interfaces = row.interfaces.copy(alloc)?;
    let scope = scope_of(&row.properties);
    let properties = with_service_properties(
        alloc,
        row.id,
        row.bundle,
        interfaces.names(),
        scope,
        given,
    )?;
    Ok(ServiceRow {
        id: row.id,
        bundle: row.bundle,
        interfaces,
        properties,
        revision,
        direct: row.direct,
    })
}
