//! Services that were bound, for whatever reference.
ghost use Rattle.instance_callbacks.specs.Bound.{binds, was_bound};
ghost use Rattle.shared_log.specs.Parts.{joined};
ghost use Rattle.std.specs.Prelude.{◌≡◌};

use callback_orders::{Callback, Called};
use prop_map::{List, Shared};

/// Whether a callback is the Bind of a service.
pub(crate) fn binds(callback: &Callback, sought: u64) -> bool
    ensures { result ≡ binds sought callback.now }
{
    match callback {
        Callback::Bind { service, .. } => *service == sought,
        _ => false,
    }
}

fn was_bound_in(calls: &[Called], service: u64) -> bool
    ensures { result ≡ was_bound service calls.now }
{
    calls.iter().any(|called| binds(&called.callback, service))
}

/// Whether one of the callbacks in these parts is the Bind of a service.
pub(crate) fn was_bound(parts: &[Shared<List<Called>>], service: u64) -> bool
    ensures { result ≡ was_bound service (joined parts.now) }
{
    parts
        .iter()
        .any(|part| was_bound_in(part.get().as_slice(), service))
}
