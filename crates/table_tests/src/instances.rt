//! The callbacks of one instance, and what is kept beside them.

use callback_orders::{Callback, Outcome, Phase};
use instance_callbacks::InstanceCallbacks;
use prop_map::{Copies, Str};
use std::alloc::Global;

fn begins(alloc: Global, callbacks: &mut InstanceCallbacks, callback: Callback) -> bool {
    callbacks.begin(alloc, callback).is_ok()
}

// Ends the callback that is under way.
fn ends(callbacks: &mut InstanceCallbacks, outcome: Outcome) -> bool {
    if !callbacks.is_outstanding() {
        return false;
    }
    callbacks.end(outcome);
    true
}

// Begins and ends a callback.
fn runs(
    alloc: Global,
    callbacks: &mut InstanceCallbacks,
    callback: Callback,
    outcome: Outcome,
) -> bool {
    begins(alloc, callbacks, callback) && ends(callbacks, outcome)
}

fn binds(alloc: Global, callbacks: &mut InstanceCallbacks, reference: &str, service: u64) -> bool {
    match Str::spell(alloc, reference) {
        Ok(reference) => {
            let bind = Callback::Bind { reference, service };
            runs(alloc, callbacks, bind, Outcome::Done)
        }
        Err(_) => false,
    }
}

// Begins an unbind, tells whether the service is held until it ends, and ends it.
fn is_held_to_the_end(
    alloc: Global,
    callbacks: &mut InstanceCallbacks,
    reference: &Str,
    unbind: Callback,
) -> bool {
    begins(alloc, callbacks, unbind)
        && callbacks.held(reference) == [4u64].as_slice()
        && ends(callbacks, Outcome::Done)
        && callbacks.held(reference).is_empty()
}

fn unbinds(alloc: Global, callbacks: &mut InstanceCallbacks, log: &Str) -> bool {
    match log.copy(alloc) {
        Ok(reference) => {
            let unbind = Callback::Unbind {
                reference,
                service: 4,
            };
            is_held_to_the_end(alloc, callbacks, log, unbind)
        }
        Err(_) => false,
    }
}

fn holds_nothing(alloc: Global, callbacks: &InstanceCallbacks, reference: &str) -> bool {
    match Str::spell(alloc, reference) {
        Ok(reference) => callbacks.held(&reference).is_empty(),
        Err(_) => false,
    }
}

fn holds_log(alloc: Global, callbacks: &mut InstanceCallbacks, log: &Str) -> bool {
    callbacks.held(log) == [4u64].as_slice()
        && holds_nothing(alloc, callbacks, "a")
        && unbinds(alloc, callbacks, log)
        && callbacks.was_bound(4)
        && !callbacks.was_bound(5)
}

fn holds_service(alloc: Global, callbacks: &mut InstanceCallbacks) -> bool {
    match Str::spell(alloc, "log") {
        Ok(log) => binds(alloc, callbacks, "log", 4) && holds_log(alloc, callbacks, &log),
        Err(_) => false,
    }
}

// Whether the last callback was done.
fn is_done(callbacks: &InstanceCallbacks) -> bool {
    match callbacks.last() {
        Some(last) => last.outcome == Some(Outcome::Done),
        None => false,
    }
}

// Whether a copy is the same until the callback that is under way ends.
fn ends_behind(callbacks: &mut InstanceCallbacks, before: &InstanceCallbacks) -> bool {
    if !(callbacks.is_outstanding() && *before == *callbacks) {
        return false;
    }
    callbacks.end(Outcome::Done);
    *before != *callbacks && !callbacks.is_outstanding() && is_done(callbacks)
}

fn copy_stays(alloc: Global, callbacks: &mut InstanceCallbacks) -> bool {
    match callbacks.copy(alloc) {
        Ok(before) => ends_behind(callbacks, &before),
        Err(_) => false,
    }
}

fn is_outstanding(alloc: Global, callbacks: &mut InstanceCallbacks) -> bool {
    begins(alloc, callbacks, Callback::Create)
        && callbacks.phase() == Phase::Making
        && copy_stays(alloc, callbacks)
}

// An activation is refused, which is known while it is under way.
fn is_refused(alloc: Global, callbacks: &mut InstanceCallbacks) -> bool {
    begins(alloc, callbacks, Callback::Activate)
        && callbacks.is_activated()
        && ends(callbacks, Outcome::Refused)
}

// What is known while it is destroyed, and then.
fn is_destroyed(alloc: Global, callbacks: &mut InstanceCallbacks) -> bool {
    begins(alloc, callbacks, Callback::Destroy)
        && callbacks.has_failed()
        && !callbacks.is_activated()
        && callbacks.is_living()
        && ends(callbacks, Outcome::Done)
        && !callbacks.is_living()
}

fn stays_failed(alloc: Global, callbacks: &mut InstanceCallbacks) -> bool {
    runs(alloc, callbacks, Callback::Create, Outcome::Done)
        && is_refused(alloc, callbacks)
        && is_destroyed(alloc, callbacks)
}

/// What an instance goes through.
#[derive(Clone, Copy)]
enum Story {
    Service,
    Copy,
    FailedActivation,
}

// Whether the story comes true for a new instance. No other function owns one's callbacks.
fn holds(alloc: Global, story: Story) -> bool {
    let mut callbacks = InstanceCallbacks::new(alloc);
    match story {
        Story::Service => holds_service(alloc, &mut callbacks),
        Story::Copy => is_outstanding(alloc, &mut callbacks),
        Story::FailedActivation => stays_failed(alloc, &mut callbacks),
    }
}

#[test]
fn a_service_is_held_to_the_end_of_its_unbind(rt: HostRuntime) {
    assert!(rt; holds(rt.alloc(), Story::Service));
}

#[test]
fn a_begun_callback_is_outstanding(rt: HostRuntime) {
    assert!(rt; holds(rt.alloc(), Story::Copy));
}

#[test]
fn a_failed_activation_stays_known(rt: HostRuntime) {
    assert!(rt; holds(rt.alloc(), Story::FailedActivation));
}
