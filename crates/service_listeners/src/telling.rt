//! What a listener is told of a change of a service.
ghost use Rattle.service_listeners.specs.Listening.{events_for, one_event, with_changes};
ghost use Rattle.service_listeners.specs.Undoing.{untold};
ghost use Rattle.service_listeners.specs.declared.listener.Listener.{Listener};
ghost use Rattle.std.specs.Option.{option_copied, option_to_list};
ghost use Rattle.std.specs.Prelude.{◌≡◌, [], ◌∷◌, if◌then◌else◌, OnErr, OnOk};

use crate::{Listener, ServiceEvent};
use ldap_filter::Filter;
use prop_map::{List, OutOfMemory};
use service_registry::ServiceRow;
use std::alloc::Global;
use std::mem;

/// The event of a change, for a filter that matches the service before or after it.
pub(crate) fn event_for(
    filter: &Filter,
    before: Option<&ServiceRow>,
    after: Option<&ServiceRow>,
) -> Option<ServiceEvent>
    ensures { option_to_list result ≡ events_for filter.now (option_copied before.entry, option_copied after.entry) }
{
    match (before, after) {
        (None, None) => None,
        (None, Some(new)) => event_if(filter.matches(&new.properties), 1, new.id),
        (Some(old), None) => event_if(filter.matches(&old.properties), 4, old.id),
        (Some(old), Some(new)) => {
            if filter.matches(&new.properties) {
                event_if(true, 2, new.id)
            } else {
                event_if(filter.matches(&old.properties), 8, new.id)
            }
        }
    }
}

fn event_if(matched: bool, value: u32, service: u64) -> Option<ServiceEvent>
    ensures { option_to_list result ≡ (if matched then one_event value service else []) }
{
    if matched {
        Some(ServiceEvent { value, service })
    } else {
        None
    }
}

/// Tells one listener of a change.
pub(crate) fn tell_one(
    listener: &mut Listener,
    before: Option<&ServiceRow>,
    after: Option<&ServiceRow>,
) -> Result<(), OutOfMemory>
    ensures ok { OnOk result (listener.new ≡ with_changes ((option_copied before.entry, option_copied after.entry) ∷ []) listener.old) }
    ensures err { OnErr result (listener.new ≡ listener.old) }
{
    match event_for(&listener.filter, before, after) {
        None => Ok(()),
        Some(event) => match listener.events.push(event) {
            Ok(()) => Ok(()),
            Err((_, fault)) => Err(fault),
        },
    }
}

/// Takes back what one listener was told last, which was of this change. It takes no memory.
pub(crate) fn untell_one(
    listener: &mut Listener,
    alloc: Global,
    before: Option<&ServiceRow>,
    after: Option<&ServiceRow>,
)
    ensures was { (was : Listener) → listener.old ≡ with_changes ((option_copied before.entry, option_copied after.entry) ∷ []) was → listener.new ≡ was }
    ensures untold { listener.new ≡ untold (option_copied before.entry, option_copied after.entry) listener.old }
{
    if event_for(&listener.filter, before, after).is_some() {
        let mut events = mem::replace(&mut listener.events, List::of(Vec::new(alloc))).items();
        let _event = events.pop();
        listener.events = List::of(events);
    }
}
