//! Open periods with the properties that their component configurations have now (OSGi Compendium 8, chapter 112,
//! "Service Properties").
ghost use Rattle.component_state.specs.Rows.{period_with_properties, row_with_properties, with_present_properties};
ghost use Rattle.std.specs.Option.{option_copied};
ghost use Rattle.std.specs.Prelude.{◌≡◌, IfOk, map};

use crate::components::component_of;
use crate::service_rows::published_by;
use crate::{Component, OpenPeriod};
use prop_map::{Copies, List, OutOfMemory, Properties};
use service_registry::ServiceRow;
use std::alloc::{AllocError, Global};

/// What is open with the properties that its component configurations have now. Where these change what a service
/// publishes, its revision rises by one.
///
/// # Errors
/// Only want of memory. That a number is too high counts as such.
pub fn with_present_properties(
    alloc: Global,
    components: &[Component],
    periods: &[OpenPeriod],
) -> Result<List<OpenPeriod>, OutOfMemory>
    ensures { IfOk result (λ after. after ≡ map (with_present_properties components.now) periods.now) }
{
    let mut after = Vec::new(alloc);
    for period in periods {
        after.push(one_with_present_properties(alloc, components, period)?)?;
    }
    Ok(List::of(after))
}

fn one_with_present_properties(
    alloc: Global,
    components: &[Component],
    period: &OpenPeriod,
) -> Result<OpenPeriod, OutOfMemory>
    ensures { IfOk result (λ after. after ≡ with_present_properties components.now period.now) }
{
    match component_of(components, period.configuration) {
        Some(component) => period_with_properties(alloc, period, component),
        None => period.copy(alloc),
    }
}

fn period_with_properties(
    alloc: Global,
    period: &OpenPeriod,
    component: &Component,
) -> Result<OpenPeriod, OutOfMemory>
    ensures { IfOk result (λ after. after ≡ period_with_properties period.now component.now) }
{
    let properties = published_by(alloc, component, period.row.id)?;
    let row = row_with_properties(alloc, &period.row, properties)?;
    Ok(OpenPeriod {
        configuration: period.configuration,
        opened: period.opened,
        row,
    })
}

fn row_with_properties(
    alloc: Global,
    row: &ServiceRow,
    properties: Properties,
) -> Result<ServiceRow, OutOfMemory>
    ensures { IfOk result (λ after. after ≡ row_with_properties row.now properties) }
{
    if properties == row.properties {
        return row.copy(alloc);
    }
    let revision = row.revision.checked_add(1).ok_or(AllocError)?;
    let interfaces = row.interfaces.copy(alloc)?;
    Ok(ServiceRow {
        id: row.id,
        bundle: row.bundle,
        interfaces,
        properties,
        revision,
        direct: row.direct,
    })
}
