//! The direct services that remain where a bundle is stopped (OSGi Core 8, chapter 4, "Stopping Bundles").
ghost use Rattle.service_registry.specs.Registries.{refusal, unregistered, without_bundle};
ghost use Rattle.std.specs.Prelude.{◌≡◌, IfOk, None};

use prop_map::{Copies, OutOfMemory};
use service_registry::Registry;
use std::alloc::Global;

/// The direct services without those of a bundle. Each of these is taken out of a copy by its number.
pub fn without_bundle(
    alloc: Global,
    registry: &Registry,
    bundle: u64,
) -> Result<Registry, OutOfMemory>
    ensures { IfOk result (λ remaining. remaining ≡ without_bundle bundle registry.now) }
{
    let mut remaining = registry.copy(alloc)?;
    let rows = registry.rows();
    for row in rows {
        if row.bundle == bundle {
            take_out(&mut remaining, bundle, row.id);
        }
    }
    Ok(remaining)
}

// Takes a service of a bundle out.
fn take_out(services: &mut Registry, bundle: u64, service: u64)
    requires { refusal bundle service services.old ≡ None }
    ensures { services.new ≡ unregistered service services.old }
{
    let _row = services.unregister(bundle, service);
}
