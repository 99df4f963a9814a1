//! The direct causes of a component configuration (OSGi Compendium 8, chapter 112, "Satisfied").
ghost use Rattle.scr_causes.specs.DirectCauses.{causes_where, direct_causes, direct_causes_of};
ghost use Rattle.scr_world.specs.Worlds.{registered_services};
ghost use Rattle.component_state.specs.Rows.{rows_of};
ghost use Rattle.std.specs.Prelude.{◌≡◌, ◌++◌, IfOk, OnOk, map};

use crate::pid_causes::pid_causes;
use crate::reference_causes::add_reference_causes;
use crate::{ServiceTable, possible_services};
use component_causes::Cause;
use component_state::{Component, OpenPeriod, existing_of};
use config_admin::Configurations;
use prop_map::{List, OutOfMemory};
use scr_dues::OwnRows;
use scr_world::World;
use service_registry::ServiceRow;
use std::alloc::Global;

/// What keeps the component configuration of a number from being satisfied, by itself: its PIDs without a configuration
/// that counts, then its references below their minimum, the implicit one on the satisfying condition last. `None` exactly
/// where there is none, or it has ceased.
///
/// # Errors
/// Only want of memory.
pub fn direct_causes(
    alloc: Global,
    own: &OwnRows,
    world: &World,
    configuration: u64,
) -> Result<Option<List<Cause>>, OutOfMemory>
    ensures { IfOk result (λ causes. causes ≡ direct_causes_of world.now configuration) }
{
    match existing_of(world.components.as_slice(), configuration) {
        Some(component) => Ok(Some(causes_in(alloc, own, world, component)?)),
        None => Ok(None),
    }
}

fn causes_in(
    alloc: Global,
    own: &OwnRows,
    world: &World,
    component: &Component,
) -> Result<List<Cause>, OutOfMemory>
    ensures { IfOk result (λ causes. causes ≡ direct_causes world.now component.now) }
{
    let possible = possible_services(alloc, world)?;
    let tables = CauseTables::of(alloc, own, world, &possible)?;
    causes_by(alloc, &tables, &world.configurations, component)
}

/// The services that decide of references: those that are registered, and those that are possible. They are made once for
/// all component configurations of a world.
#[derive(Drop)]
pub struct CauseTables<'w> {
    /// The registered services.
    pub registered: ServiceTable<'w>,
    /// Those that component configurations would provide that aren't open.
    pub possible: ServiceTable<'w>,
}

impl<'w> CauseTables<'w> {
    /// Those of a world.
    ///
    /// # Errors
    /// Only want of memory.
    pub fn of(
        alloc: Global,
        own: &'w OwnRows,
        world: &'w World,
        possible: &'w [ServiceRow],
    ) -> Result<CauseTables<'w>, OutOfMemory>
        ensures registered { IfOk result (λ tables. tables.registered ≡ registered_services world.entry.now) }
        ensures possible { IfOk result (λ tables. tables.possible ≡ possible.entry.now) }
    {
        let registered = registered_table(alloc, own, world)?;
        let possible = table_of(alloc, possible)?;
        Ok(CauseTables {
            registered,
            possible,
        })
    }
}

/// What keeps a component configuration from being satisfied, by itself, where these services are registered and possible
/// and these configurations are set.
///
/// # Errors
/// Only want of memory.
pub fn causes_by(
    alloc: Global,
    tables: &CauseTables<'_>,
    configurations: &Configurations,
    component: &Component,
) -> Result<List<Cause>, OutOfMemory>
    ensures { IfOk result (λ causes. causes ≡ causes_where configurations.now tables.now.registered tables.now.possible component.now) }
{
    let mut causes = pid_causes(alloc, configurations, component)?;
    add_reference_causes(alloc, tables, component, &mut causes)?;
    Ok(List::of(causes))
}

fn registered_table<'w>(
    alloc: Global,
    own: &'w OwnRows,
    world: &'w World,
) -> Result<ServiceTable<'w>, OutOfMemory>
    ensures { IfOk result (λ table. table ≡ registered_services world.entry.now) }
{
    let rows = registered_rows(alloc, own, world)?;
    ServiceTable::of(alloc, rows)
}

// The service of the platform, the direct ones of bundles, and those of open periods.
fn registered_rows<'w>(
    alloc: Global,
    own: &'w OwnRows,
    world: &'w World,
) -> Result<Vec<&'w ServiceRow>, OutOfMemory>
    ensures { IfOk result (λ rows. map (λ r. r.now) rows.items ≡ registered_services world.entry.now) }
{
    let mut rows = Vec::new(alloc);
    rows.push(own.condition())?;
    add_rows(&mut rows, world.registry.rows())?;
    add_opened(&mut rows, world.open_periods.as_slice())?;
    Ok(rows)
}

fn table_of(alloc: Global, services: &[ServiceRow]) -> Result<ServiceTable<'_>, OutOfMemory>
    ensures { IfOk result (λ table. table ≡ services.now) }
{
    let mut rows = Vec::new(alloc);
    add_rows(&mut rows, services)?;
    ServiceTable::of(alloc, rows)
}

fn add_rows<'r>(rows: &mut Vec<&'r ServiceRow>, more: &'r [ServiceRow]) -> Result<(), OutOfMemory>
    ensures { OnOk result (map (λ r. r.now) rows.new.items ≡ map (λ r. r.now) rows.old.items ++ more.entry.now) }
{
    for row in more {
        rows.push(row)?;
    }
    Ok(())
}

fn add_opened<'r>(
    rows: &mut Vec<&'r ServiceRow>,
    periods: &'r [OpenPeriod],
) -> Result<(), OutOfMemory>
    ensures { OnOk result (map (λ r. r.now) rows.new.items ≡ map (λ r. r.now) rows.old.items ++ rows_of periods.entry.now) }
{
    for period in periods {
        if period.row.id != 0 {
            rows.push(&period.row)?;
        }
    }
    Ok(())
}
