//! Calls that wait for the reply of a nested one.

use kind_trait::{CallStack, CallTooLong, KindFault, NestedReply};
use prop_map::{Copies, Str};
use std::alloc::Global;
use std::fmt::Display;

fn waits(alloc: Global) -> bool {
    let mut stack = match CallStack::new(alloc) {
        Ok(stack) => stack,
        Err(_) => return false,
    };
    match stack.make_room() {
        Ok(()) => {}
        Err(_) => return false,
    }
    let waited = stack.push(3, 7u64).is_ok()
        && stack.waiting().len() == 1
        && stack.pop() == Some(7);
    if stack.waiting().is_empty() {
        stack.close();
    }
    waited
}

#[test]
fn a_call_waits_for_its_nested_one(rt: HostRuntime) {
    assert!(rt; waits(rt.alloc()));
}

fn copy_is_same(alloc: Global, reply: &NestedReply) -> bool {
    match reply.copy(alloc) {
        Ok(copy) => copy == *reply,
        Err(_) => false,
    }
}

fn is_copied(alloc: Global) -> bool {
    match Str::spell(alloc, "hello") {
        Ok(text) => copy_is_same(alloc, &NestedReply::Text(text)),
        Err(_) => false,
    }
}

#[test]
fn a_reply_is_copied(rt: HostRuntime) {
    assert!(rt; is_copied(rt.alloc()));
}

// Whether it is printed so.
pub(crate) fn is_printed<T: Display>(alloc: Global, value: &T, wanted: &str) -> bool {
    match format!(in alloc; "{value}") {
        Ok(text) => text.as_str() == wanted,
        Err(_) => false,
    }
}

#[test]
fn faults_are_printed(rt: HostRuntime) {
    let alloc = rt.alloc();
    assert!(rt;
        is_printed(alloc, &CallTooLong, "the call is too long")
            && is_printed(alloc, &KindFault::Refused, "the component refuses")
    );
}
