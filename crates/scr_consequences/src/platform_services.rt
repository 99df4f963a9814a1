//! The service of the platform itself (OSGi Core 8, "Condition Service Specification"), and the direct services with it.
ghost use Rattle.prop_map.specs.declared.value.Value.{Value};
ghost use Rattle.scr_world.specs.Whiteboard.{condition, platform_rows};
ghost use Rattle.scr_world.specs.Worlds.{direct_services};
ghost use Rattle.std.specs.Prelude.{◌≡◌, ◌++◌, ◌∷◌, [], IfOk, string_bytes};

use prop_map::{Copies, List, OutOfMemory, Properties, Str, Value};
use scr_world::World;
use service_registry::{Interfaces, ServiceRow, with_service_properties};
use std::alloc::Global;

pub(crate) fn text(alloc: Global, text: &str) -> Result<Str, OutOfMemory>
    ensures { IfOk result (λ copy. copy ≡ text.now) }
{
    Ok(Str::of(String::from_str(alloc, text)?))
}

fn one_text(alloc: Global, only: &str) -> Result<List<Str>, OutOfMemory>
    ensures { IfOk result (λ texts. texts ≡ only.now ∷ []) }
{
    let mut texts = Vec::new(alloc);
    texts.push(text(alloc, only)?)?;
    Ok(List::of(texts))
}

/// The service 0, which says that the platform is there.
///
/// # Errors
/// Only want of memory.
pub fn condition(alloc: Global) -> Result<ServiceRow, OutOfMemory>
    ensures { IfOk result (λ row. row ≡ condition) }
{
    let interfaces = one_text(alloc, "org.osgi.service.condition.Condition")?;
    let mut given = Properties::new(alloc);
    given.set(
        alloc,
        "osgi.condition.id",
        Value::Text(text(alloc, "true")?),
    )?;
    let properties = with_service_properties(
        alloc,
        0,
        0,
        interfaces.as_slice(),
        "singleton",
        given,
    )?;
    Ok(ServiceRow {
        id: 0,
        bundle: 0,
        interfaces: Interfaces::of(alloc, interfaces)?,
        properties,
        revision: 0,
        direct: true,
    })
}

// Copies of rows behind one row.
fn copies_behind(
    alloc: Global,
    first: ServiceRow,
    rows: &[ServiceRow],
) -> Result<Vec<ServiceRow>, OutOfMemory>
    ensures { IfOk result (λ v. v.items ≡ (first ∷ []) ++ rows.now) }
{
    let mut copies = Vec::new(alloc);
    copies.push(first)?;
    for row in rows {
        copies.push(row.copy(alloc)?)?;
    }
    Ok(copies)
}

/// Copies of the direct services of a world: that of the platform, and those that commands registered, by number.
///
/// # Errors
/// Only want of memory.
pub fn direct_services(alloc: Global, world: &World) -> Result<Vec<ServiceRow>, OutOfMemory>
    ensures { IfOk result (λ v. v.items ≡ direct_services world.now) }
{
    copies_behind(alloc, condition(alloc)?, world.registry.rows())
}
