//! Services in the order of their numbers.
ghost use Rattle.prop_map.specs.Words.{in_order};
ghost use Rattle.service_registry.specs.declared.row.ServiceRow.{ServiceRow};
ghost use Rattle.std.specs.Prelude.{◌≡◌, IfOk, map, nat_lt};

use prop_map::OutOfMemory;
use service_registry::ServiceRow;

/// Services in the order of their numbers.
///
/// # Errors
/// Only want of memory.
pub(crate) fn by_number<'w>(
    services: Vec<&'w ServiceRow>,
) -> Result<Vec<&'w ServiceRow>, OutOfMemory>
    ensures { IfOk result (λ v. map (λ r. r.now) v.items ≡ in_order (λ (a b : ServiceRow). nat_lt a.id b.id) (map (λ r. r.now) services.entry.items)) }
{
    let mut services = services;
    // The sort keeps equal numbers in their order: with the last one first they stand as by one insertion after the other.
    services.reverse();
    services.sort_by_key(|service| service.id)?;
    Ok(services)
}
