//! What listeners were told (OSGi Core 8, chapter 5, "Service Events").
ghost use Rattle.scr_readers.specs.Events.{events_told, has_listener};
ghost use Rattle.std.specs.Prelude.{◌≡◌, drop, false, true, IfErr, IfOk, OnOk};

use scr_world::{CoreFault, World};
use service_listeners::ServiceEvent;

/// What a listener was told behind the first `position` events; nothing where there are no more. It takes no memory.
///
/// # Errors
/// `NoListener` exactly where there is no listener of this number.
pub fn events_after(
    world: &World,
    listener: u64,
    position: u64,
) -> Result<&[ServiceEvent], CoreFault>
    ensures events { IfOk result (λ events. events.now ≡ events_told world.now listener position) }
    ensures known { OnOk result (has_listener world.now listener ≡ true) }
    ensures refused { IfErr result (λ fault. (fault ≡ CoreFault.NoListener listener) × (has_listener world.now listener ≡ false)) }
{
    match world.listeners.listener(listener) {
        Some(row) => Ok(behind(row.events.as_slice(), position)),
        None => Err(CoreFault::NoListener { listener }),
    }
}

fn behind(events: &[ServiceEvent], position: u64) -> &[ServiceEvent]
    ensures { result.now ≡ drop position events.now }
{
    if position < events.len() as u64 {
        return &events[position as usize..];
    }
    &events[events.len()..]
}
