//! Listeners of service events.

use crate::samples::properties;
use ldap_filter::Filter;
use prop_map::{List, OutOfMemory};
use service_listeners::Listeners;
use service_registry::{Interfaces, ServiceRow};
use std::alloc::Global;

// Service 1, whose `v` is this.
fn service(alloc: Global, v: i64) -> Result<ServiceRow, OutOfMemory> {
    let interfaces = Interfaces::of(alloc, List::of(Vec::new(alloc)))?;
    Ok(ServiceRow {
        id: 1,
        bundle: 1,
        interfaces,
        properties: properties(alloc, v)?,
        revision: 0,
        direct: true,
    })
}

// Whether the next listener has this number. It is of this bundle, and its filter is this.
fn listens(
    alloc: Global,
    listeners: &mut Listeners,
    bundle: u64,
    filter: &str,
    number: u64,
) -> bool {
    match Filter::parse(alloc, filter) {
        Ok(filter) => listeners.listen(alloc, bundle, filter) == Ok(number),
        Err(_) => false,
    }
}

// Whether a listener was told these of service 1 behind the first `position`.
fn was_told(listeners: &Listeners, listener: u64, position: usize, values: &[u32]) -> bool {
    match listeners.events_since(listener, position) {
        Ok(events) => {
            events.len() == values.len()
                && events.iter().zip(values).all(|(event, value)| event.service == 1
                    && event.value == *value)
        }
        Err(_) => false,
    }
}

// Service 1 comes, with 1 at `v`.
fn comes(alloc: Global, listeners: &mut Listeners) -> bool {
    match service(alloc, 1) {
        Ok(one) => listeners.tell(alloc, None, Some(&one)).is_ok(),
        Err(_) => false,
    }
}

fn changes(alloc: Global, listeners: &mut Listeners, one: &ServiceRow) -> bool {
    match service(alloc, 2) {
        Ok(two) => listeners.tell(alloc, Some(one), Some(&two)).is_ok(),
        Err(_) => false,
    }
}

fn comes_and_changes(alloc: Global, listeners: &mut Listeners) -> bool {
    match service(alloc, 1) {
        Ok(one) => {
            listeners.tell(alloc, None, Some(&one)).is_ok() && changes(alloc, listeners, &one)
        }
        Err(_) => false,
    }
}

fn is_told(alloc: Global, listeners: &mut Listeners) -> bool {
    listens(alloc, listeners, 1, "(v=1)", 1)
        && comes_and_changes(alloc, listeners)
        && was_told(listeners, 1, 0, &[1, 8])
        && was_told(listeners, 1, 9, &[])
}

fn come_and_go(alloc: Global, listeners: &mut Listeners) -> bool {
    if !(listens(alloc, listeners, 1, "(v=*)", 1)
        && !listeners.is_full()
        && listeners.listener(1).is_some()
        && listeners.unlisten(1).is_ok())
    {
        return false;
    }
    listeners.remove_listeners_of(1);
    listeners.rows().is_empty() && listeners.numbered() == 1
}

fn tell_is_undone(alloc: Global, listeners: &mut Listeners) -> bool {
    match service(alloc, 1) {
        Ok(one) => {
            let is_told = listeners.tell(alloc, None, Some(&one)).is_ok();
            listeners.undo_tell(alloc, None, Some(&one));
            is_told
        }
        Err(_) => false,
    }
}

fn is_untold(alloc: Global, listeners: &mut Listeners) -> bool {
    listens(alloc, listeners, 1, "(v=1)", 1)
        && tell_is_undone(alloc, listeners)
        && was_told(listeners, 1, 0, &[])
}

fn is_taken_back(alloc: Global, listeners: &mut Listeners) -> bool {
    listens(alloc, listeners, 1, "(v=1)", 1)
        && listeners.undo_listen().is_some()
        && listeners.numbered() == 0
}

// Whether the first listener has this number.
fn begins_with(listeners: &Listeners, number: u64) -> bool {
    match listeners.rows().first() {
        Some(row) => row.number == number,
        None => false,
    }
}

// Removes listener 1 and puts it back.
fn is_removed_and_put_back(alloc: Global, listeners: &mut Listeners) -> bool {
    let room = match listeners.room(alloc) {
        Ok(room) => room,
        Err(_) => return false,
    };
    let row = match listeners.remove(1) {
        Ok(row) => row,
        Err(_) => return false,
    };
    let is_gone = listeners.listener(1).is_none();
    listeners.put_back(row, room);
    is_gone && begins_with(listeners, 1)
}

fn is_back_at_its_place(alloc: Global, listeners: &mut Listeners) -> bool {
    listens(alloc, listeners, 1, "(v=1)", 1)
        && listens(alloc, listeners, 1, "(v=*)", 2)
        && comes(alloc, listeners)
        && is_removed_and_put_back(alloc, listeners)
        && was_told(listeners, 1, 0, &[1])
        && listeners.numbered() == 2
}

// Takes the listeners of bundle 1 and puts them back.
fn are_taken_and_put_back(alloc: Global, listeners: &mut Listeners) -> bool {
    let room = match listeners.room(alloc) {
        Ok(room) => room,
        Err(_) => return false,
    };
    let kept = listeners.take_listeners_of(1, room);
    let one_is_left = begins_with(listeners, 2);
    listeners.put_listeners_back(kept);
    one_is_left && begins_with(listeners, 1)
}

fn are_back_at_their_places(alloc: Global, listeners: &mut Listeners) -> bool {
    listens(alloc, listeners, 1, "(v=1)", 1)
        && listens(alloc, listeners, 2, "(v=*)", 2)
        && comes(alloc, listeners)
        && are_taken_and_put_back(alloc, listeners)
        && was_told(listeners, 1, 0, &[1])
}

/// What happens to a table.
#[derive(Clone, Copy)]
enum Story {
    Told,
    ComeAndGone,
    Untold,
    TakenBack,
    PutBack,
    BundlePutBack,
}

fn comes_true(alloc: Global, listeners: &mut Listeners, story: Story) -> bool {
    match story {
        Story::Told => is_told(alloc, listeners),
        Story::ComeAndGone => come_and_go(alloc, listeners),
        Story::Untold => is_untold(alloc, listeners),
        Story::TakenBack => is_taken_back(alloc, listeners),
        Story::PutBack => is_back_at_its_place(alloc, listeners),
        Story::BundlePutBack => are_back_at_their_places(alloc, listeners),
    }
}

// The same in a new table.
fn holds(alloc: Global, story: Story) -> bool {
    match Listeners::new(alloc) {
        Ok(mut listeners) => comes_true(alloc, &mut listeners, story),
        Err(_) => false,
    }
}

#[test]
fn a_listener_is_told_by_what_stood_before_and_after(rt: HostRuntime) {
    assert!(rt; holds(rt.alloc(), Story::Told));
}

#[test]
fn listeners_come_and_go(rt: HostRuntime) {
    assert!(rt; holds(rt.alloc(), Story::ComeAndGone));
}

#[test]
fn what_a_listener_was_told_is_taken_back(rt: HostRuntime) {
    assert!(rt; holds(rt.alloc(), Story::Untold));
}

#[test]
fn a_listener_is_taken_back(rt: HostRuntime) {
    assert!(rt; holds(rt.alloc(), Story::TakenBack));
}

// A table from its beginning, with a listener and back without.
fn goes_back(alloc: Global, filter: Filter) -> bool {
    let mut listeners = match Listeners::new(alloc) {
        Ok(listeners) => listeners,
        Err(_) => return false,
    };
    let saved = match listeners.save(alloc) {
        Ok(saved) => saved,
        Err(_) => return false,
    };
    if listeners.listen(alloc, 1, filter) != Ok(1) {
        return false;
    }
    listeners.go_back(saved);
    listeners.rows().is_empty()
}

fn goes_back_to_nothing(alloc: Global) -> bool {
    match Filter::parse(alloc, "(v=*)") {
        Ok(filter) => goes_back(alloc, filter),
        Err(_) => false,
    }
}

#[test]
fn listeners_go_back_to_what_was_saved(rt: HostRuntime) {
    assert!(rt; goes_back_to_nothing(rt.alloc()));
}

#[test]
fn a_removed_listener_is_put_back_at_its_place(rt: HostRuntime) {
    assert!(rt; holds(rt.alloc(), Story::PutBack));
}

#[test]
fn the_listeners_of_a_bundle_are_put_back(rt: HostRuntime) {
    assert!(rt; holds(rt.alloc(), Story::BundlePutBack));
}
