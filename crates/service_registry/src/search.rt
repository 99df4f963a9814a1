//! Services by interface (OSGi Core 8, section 5.2.2).
ghost use Rattle.service_registry.specs.Services.{best_of, best_first, better_one, has_interface, ids, ranked};
ghost use Rattle.service_registry.specs.declared.row.ServiceRow.{ServiceRow};
ghost use Rattle.std.specs.Option.{option_copied};
ghost use Rattle.std.specs.Prelude.{◌≡◌, IfOk, filter, map};

use crate::{Ranked, ServiceRow, better, numbers_best_first, ranked};
use prop_map::OutOfMemory;
use std::alloc::Global;

/// Whether a service has an interface. It is compared with no more of them than the logarithm of their number, and takes no
/// memory.
pub fn has_interface(interface: &str, service: &ServiceRow) -> bool
    ensures { result ≡ has_interface interface.now service.now }
{
    service.interfaces.has(interface)
}

/// The best of the services with an interface.
pub(crate) fn best_with<'r>(rows: &'r [ServiceRow], interface: &str) -> Option<&'r ServiceRow>
    ensures { option_copied result ≡ best_of (filter (has_interface interface.now) rows.now) }
{
    let mut best: Option<&'r ServiceRow> = None;
    let mut left = rows.len();
    while left > 0 {
        left -= 1;
        let row = &rows[left];
        if has_interface(interface, row) {
            best = Some(better_one(row, best));
        }
    }
    best
}

// The better of a service and another one, if there is one.
fn better_one<'r>(row: &'r ServiceRow, best: Option<&'r ServiceRow>) -> &'r ServiceRow
    ensures { result.now ≡ better_one row.now (option_copied best.entry) }
{
    match best {
        Some(other) if !better(row, other) => other,
        _ => row,
    }
}

/// The numbers of the services with an interface, the best first.
pub(crate) fn numbers_with(
    alloc: Global,
    rows: &[ServiceRow],
    interface: &str,
) -> Result<Vec<u64>, OutOfMemory>
    ensures { IfOk result (λ v. v.items ≡ ids (best_first (filter (has_interface interface.now) rows.now))) }
{
    let found = ranked_with(alloc, rows, interface)?;
    let numbers = numbers_best_first(alloc, found)?;
    Ok(numbers)
}

fn ranked_with(
    alloc: Global,
    rows: &[ServiceRow],
    interface: &str,
) -> Result<Vec<Ranked>, OutOfMemory>
    ensures { IfOk result (λ v. v.items ≡ map ranked (filter (has_interface interface.now) rows.now)) }
{
    let mut found = Vec::new(alloc);
    for row in rows {
        if has_interface(interface, row) {
            found.push(ranked(row))?;
        }
    }
    Ok(found)
}
