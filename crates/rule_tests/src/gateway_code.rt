//! The component code of the gateway.

use crate::samples::site;
use gateway::Gateway;
use kind_trait::{KindFault, Kinds, NestedReply, Next, Site};
use prop_map::{OutOfMemory, Str};
use std::alloc::Global;

// What a request comes to by one reply more. What is asked of others is added to the calls.
fn replied<K: Kinds>(
    alloc: Global,
    kinds: &K,
    next: Next<K::Work>,
    reply: &NestedReply,
    calls: &mut Vec<Str>,
) -> Result<Next<K::Work>, KindFault> {
    match next {
        Next::Answer { text } => Ok(Next::Answer { text }),
        Next::Call { request, work, .. } => {
            calls.push(request)?;
            kinds.resume(alloc, work, reply)
        }
    }
}

// What a request comes to by these replies.
fn replied_all<K: Kinds>(
    alloc: Global,
    kinds: &K,
    first: Next<K::Work>,
    replies: &[NestedReply],
    calls: &mut Vec<Str>,
) -> Result<Option<Str>, KindFault> {
    let mut next = first;
    for reply in replies {
        next = replied(alloc, kinds, next, reply, calls)?;
    }
    match next {
        Next::Answer { text } => Ok(Some(text)),
        Next::Call { .. } => Ok(None),
    }
}

// What a request comes to, when each nested call gets the next of these replies.
fn asked<K: Kinds>(
    alloc: Global,
    kinds: &K,
    site: &Site,
    request: &str,
    replies: &[NestedReply],
    calls: &mut Vec<Str>,
) -> Result<Option<Str>, KindFault> {
    let object = kinds.create(alloc, site)?;
    let first = kinds.start(alloc, &object, site, request)?;
    replied_all(alloc, kinds, first, replies, calls)
}

fn answers(
    alloc: Global,
    site: &Site,
    request: &str,
    replies: &[NestedReply],
    calls: &mut Vec<Str>,
    wanted: &str,
) -> bool {
    match asked(alloc, &Gateway, site, request, replies, calls) {
        Ok(Some(text)) => text.as_str() == wanted,
        _ => false,
    }
}

fn refuses(alloc: Global, site: &Site, request: &str, calls: &mut Vec<Str>) -> bool {
    match asked(alloc, &Gateway, site, request, &[], calls) {
        Err(KindFault::Refused) => true,
        _ => false,
    }
}

fn reads(alloc: Global, site: &Site) -> bool {
    let mut calls = Vec::new(alloc);
    answers(alloc, site, "read", &[], &mut calls, "21 C")
}

fn sensor_reads(alloc: Global) -> bool {
    match site(alloc, "gateway.Thermometer", "reading", "21") {
        Ok(thermometer) => reads(alloc, &thermometer),
        Err(_) => false,
    }
}

#[test]
fn a_sensor_answers_its_reading_with_its_unit(rt: HostRuntime) {
    assert!(rt; sensor_reads(rt.alloc()));
}

// The reply of a sensor, and that of the store.
fn replies(alloc: Global) -> Result<[NestedReply; 2], OutOfMemory> {
    let read = Str::spell(alloc, "21 C")?;
    let kept = Str::spell(alloc, "kept 21 C")?;
    Ok([NestedReply::Text(read), NestedReply::Text(kept)])
}

// Whether two calls were made, the last one with this text.
fn are_two(calls: &[Str], last: &str) -> bool {
    match calls {
        [_, second] => second.as_str() == last,
        _ => false,
    }
}

fn hands_on(alloc: Global, site: &Site, replies: &[NestedReply]) -> bool {
    let mut calls = Vec::new(alloc);
    answers(alloc, site, "read", replies, &mut calls, "kept 21 C")
        && are_two(calls.as_slice(), "21 C")
}

fn hands_reading(alloc: Global, site: &Site) -> bool {
    match replies(alloc) {
        Ok(replies) => hands_on(alloc, site, &replies),
        Err(_) => false,
    }
}

fn aggregator_hands_on(alloc: Global) -> bool {
    match site(alloc, "gateway.Aggregator", "", "") {
        Ok(aggregator) => hands_reading(alloc, &aggregator),
        Err(_) => false,
    }
}

#[test]
fn the_aggregator_hands_a_reading_to_the_store(rt: HostRuntime) {
    assert!(rt; aggregator_hands_on(rt.alloc()));
}

fn has_one_path(alloc: Global, page: &Site) -> bool {
    let replies = [NestedReply::NoService];
    let mut calls = Vec::new(alloc);
    answers(alloc, page, "/", &replies, &mut calls, "<p>no reading</p>")
        && refuses(alloc, page, "/other", &mut calls)
}

fn page_has_one_path(alloc: Global) -> bool {
    match site(alloc, "gateway.Page", "", "") {
        Ok(page) => has_one_path(alloc, &page),
        Err(_) => false,
    }
}

#[test]
fn the_page_has_one_path(rt: HostRuntime) {
    assert!(rt; page_has_one_path(rt.alloc()));
}

fn refuses_create(alloc: Global, class: &str) -> bool {
    match site(alloc, class, "reading", "1013") {
        Ok(site) => Gateway.create(alloc, &site) == Err(KindFault::Refused),
        Err(_) => false,
    }
}

fn refuses_activate(alloc: Global, class: &str) -> bool {
    match site(alloc, class, "reading", "") {
        Ok(site) => {
            Gateway.create(alloc, &site) == Ok(())
                && Gateway.activate(alloc, &(), &site) == Err(KindFault::Refused)
        }
        Err(_) => false,
    }
}

#[test]
fn a_class_of_another_name_and_a_sensor_without_a_reading_are_refused(rt: HostRuntime) {
    assert!(rt;
        refuses_create(rt.alloc(), "gateway.Barometer")
            && refuses_activate(rt.alloc(), "gateway.Thermometer")
    );
}
