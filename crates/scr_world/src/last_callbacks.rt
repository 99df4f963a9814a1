//! The last callback that an instance was told of (OSGi Compendium 8, chapter 112, "Component Life Cycle").
ghost use Rattle.callback_orders.specs.Grammar.{is_activate, is_create, is_destroy};
ghost use Rattle.scr_world.specs.Instances.{last_callback, last_is};
ghost use Rattle.std.specs.Option.{option_copied};
ghost use Rattle.std.specs.Prelude.{◌≡◌};

use callback_orders::Callback;
use instance_callbacks::InstanceCallbacks;

/// The last one of these callbacks, if there is one. It takes no memory.
#[tactic(auto, using(crate::proofs::LastCallbacks::last_callback_at))]
pub fn last_callback(callbacks: &InstanceCallbacks) -> Option<&Callback>
    ensures { option_copied result ≡ last_callback callbacks.now }
{
    match callbacks.last() {
        Some(called) => Some(&called.callback),
        None => None,
    }
}

/// Whether the last one is a Create. It takes no memory.
pub fn last_is_create(callbacks: &InstanceCallbacks) -> bool
    ensures { result ≡ last_is is_create callbacks.now }
{
    match last_callback(callbacks) {
        Some(callback) => callback.is_create(),
        None => false,
    }
}

/// Whether it is an Activate. It takes no memory.
pub fn last_is_activate(callbacks: &InstanceCallbacks) -> bool
    ensures { result ≡ last_is is_activate callbacks.now }
{
    match last_callback(callbacks) {
        Some(callback) => callback.is_activate(),
        None => false,
    }
}

/// Whether it is a Destroy. It takes no memory.
pub fn last_is_destroy(callbacks: &InstanceCallbacks) -> bool
    ensures { result ≡ last_is is_destroy callbacks.now }
{
    match last_callback(callbacks) {
        Some(callback) => callback.is_destroy(),
        None => false,
    }
}
