//! The service that the last callback of an instance unbinds (OSGi Compendium 8, chapter 112, "Unbinding Services").
ghost use Rattle.scr_still.specs.StillEnds.{service_unbound};
ghost use Rattle.scr_world.specs.Instances.{last_callback};
ghost use Rattle.std.specs.Prelude.{◌≡◌, option_and_then};

use callback_orders::Callback;
use instance_callbacks::InstanceCallbacks;
use scr_world::last_callback;

/// The service that the last one of these callbacks unbinds, if it is an Unbind.
pub(crate) fn last_unbound(callbacks: &InstanceCallbacks) -> Option<u64>
    ensures { result ≡ option_and_then service_unbound (last_callback callbacks.now) }
{
    match last_callback(callbacks) {
        Some(callback) => service_unbound(callback),
        None => None,
    }
}

fn service_unbound(callback: &Callback) -> Option<u64>
    ensures { result ≡ service_unbound callback.now }
{
    match callback {
        Callback::Unbind { service, .. } => Some(*service),
        _ => None,
    }
}
