//! The targets of a reference (OSGi Compendium 8, chapter 112, target services).
ghost use Rattle.reference_match.specs.Standing.{is_registered, standing};
ghost use Rattle.reference_match.specs.Targets.{meets, targets};
ghost use Rattle.service_registry.specs.Services.{ranked};
ghost use Rattle.std.specs.Prelude.{◌≡◌, ◌++◌, IfOk, OnOk, filter, map};

use crate::{Need, meets};
use prop_map::OutOfMemory;
use service_registry::{HasRow, Ranked, ServiceRow, numbers_best_first, ranked};
use std::alloc::Global;

/// The numbers of the services that meet a need, the best first.
///
/// # Errors
/// Only want of memory.
pub fn targets(alloc: Global, need: &Need, rows: &[ServiceRow]) -> Result<Vec<u64>, OutOfMemory>
    ensures { IfOk result (λ v. v.items ≡ targets need.now rows.now) }
{
    let mut found = Vec::new(alloc);
    add_meeting(&mut found, need, rows)?;
    let numbers = numbers_best_first(alloc, found)?;
    Ok(numbers)
}

/// The same among direct services and those of open periods, which stand in lists of their own.
///
/// # Errors
/// Only want of memory.
pub fn standing_targets<R: HasRow>(
    alloc: Global,
    need: &Need,
    direct: &[ServiceRow],
    opened: &[R],
) -> Result<Vec<u64>, OutOfMemory>
    ensures { IfOk result (λ v. v.items ≡ targets need.now (standing direct.now (map R.row_of opened.now))) }
{
    let mut found = Vec::new(alloc);
    add_meeting(&mut found, need, direct)?;
    add_registered(&mut found, need, opened)?;
    let numbers = numbers_best_first(alloc, found)?;
    Ok(numbers)
}

fn add_meeting(found: &mut Vec<Ranked>, need: &Need, rows: &[ServiceRow]) -> Result<(), OutOfMemory>
    ensures { OnOk result (found.new.items ≡ found.old.items ++ map ranked (filter (meets need.now) rows.now)) }
{
    for row in rows {
        if meets(need, row) {
            found.push(ranked(row))?;
        }
    }
    Ok(())
}

fn add_registered<R: HasRow>(
    found: &mut Vec<Ranked>,
    need: &Need,
    opened: &[R],
) -> Result<(), OutOfMemory>
    ensures { OnOk result (found.new.items ≡ found.old.items ++ map ranked (filter (meets need.now) (filter is_registered (map R.row_of opened.now)))) }
{
    for one in opened {
        let row = one.row();
        if row.id != 0 && meets(need, row) {
            found.push(ranked(row))?;
        }
    }
    Ok(())
}
