//! A hub on one thread.
ghost use Rattle.std.specs.Prelude.{◌≡◌};

use crate::samples::post;
use event_admin::{Delivery, EventHub, Left, Publisher};
use std::alloc::Global;
use std::sync::Wait;

// Whether the hub takes a post of this number.
fn takes<R: Wait>(
    rt: &R,
    alloc: Global,
    hub: &EventHub,
    publisher: &mut Publisher,
    number: u64,
) -> bool
    requires { publisher.old.hub ≡ hub.now.hub }
    ensures { (publisher.new.hub ≡ publisher.old.hub) × (publisher.new.spare ≡ publisher.old.spare) }
{
    match post(alloc, 0, number) {
        Some(post) => match hub.post(rt, publisher, post) {
            Ok(()) => true,
            Err(_) => false,
        },
        None => false,
    }
}

// Whether the hub is full, and a post of this number comes back.
fn gives_back<R: Wait>(
    rt: &R,
    alloc: Global,
    hub: &EventHub,
    publisher: &mut Publisher,
    number: u64,
) -> bool
    requires { publisher.old.hub ≡ hub.now.hub }
    ensures { (publisher.new.hub ≡ publisher.old.hub) × (publisher.new.spare ≡ publisher.old.spare) }
{
    match post(alloc, 0, number) {
        Some(post) => match hub.post(rt, publisher, post) {
            Ok(()) => false,
            Err((back, _)) => back.number == number,
        },
        None => false,
    }
}

// The number of the next post.
fn next<R: Wait>(rt: &R, hub: &EventHub, delivery: &mut Delivery) -> Option<u64>
    requires { delivery.old.hub ≡ hub.now.hub }
    ensures { delivery.new.hub ≡ delivery.old.hub }
{
    match hub.next(rt, delivery) {
        Some(post) => Some(post.number),
        None => None,
    }
}

// Whether the next post has this number.
fn comes<R: Wait>(rt: &R, hub: &EventHub, delivery: &mut Delivery, number: u64) -> bool
    requires { delivery.old.hub ≡ hub.now.hub }
    ensures { delivery.new.hub ≡ delivery.old.hub }
{
    match next(rt, hub, delivery) {
        Some(found) => found == number,
        None => false,
    }
}

// Whether the hub takes two posts and no third, and gives the two.
fn fills_two<R: Wait>(
    rt: &R,
    alloc: Global,
    hub: &EventHub,
    publisher: &mut Publisher,
    delivery: &mut Delivery,
) -> bool
    requires { (publisher.old.hub ≡ hub.now.hub) × (delivery.old.hub ≡ hub.now.hub) }
    ensures publisher { (publisher.new.hub ≡ publisher.old.hub) × (publisher.new.spare ≡ publisher.old.spare) }
    ensures delivery { delivery.new.hub ≡ delivery.old.hub }
{
    takes(rt, alloc, hub, publisher, 1)
        && takes(rt, alloc, hub, publisher, 2)
        && gives_back(rt, alloc, hub, publisher, 3)
        && comes(rt, hub, delivery, 1)
        && comes(rt, hub, delivery, 2)
        && next(rt, hub, delivery).is_none()
}

fn third_finds_two_full<R: Wait>(rt: &R, alloc: Global) -> bool {
    match EventHub::new(alloc, 2) {
        Ok((hub, mut publisher, mut delivery)) => {
            let are_full = fills_two(rt, alloc, &hub, &mut publisher, &mut delivery);
            let left = hub.close(rt, publisher, delivery);
            are_full && left.taken == 2 && left.left.len() == 0
        }
        Err(_) => false,
    }
}

#[test]
fn a_third_post_finds_two_places_full(rt: HostRuntime) {
    assert!(rt; third_finds_two_full(&rt, rt.alloc()));
}

// Whether each of two publishers posts, and one of the posts is taken. The first and the delivery meet then.
fn both_post<R: Wait>(
    rt: &R,
    alloc: Global,
    hub: &EventHub,
    first: &mut Publisher,
    second: &mut Publisher,
    delivery: &mut Delivery,
) -> bool
    requires { (first.old.hub ≡ hub.now.hub) × (second.old.hub ≡ hub.now.hub) × (delivery.old.hub ≡ hub.now.hub) }
    ensures first { (first.new.hub ≡ first.old.hub) × (first.new.spare ≡ first.old.spare) }
    ensures second { (second.new.hub ≡ second.old.hub) × (second.new.spare ≡ second.old.spare) }
    ensures delivery { delivery.new.hub ≡ delivery.old.hub }
{
    let is_posted = takes(rt, alloc, hub, second, 1);
    let are_posted = takes(rt, alloc, hub, first, 2);
    let came = comes(rt, hub, delivery, 1);
    hub.meet(first, delivery);
    is_posted && are_posted && came
}

fn is_second(left: &Left) -> bool {
    match left.left.as_slice() {
        [post] => left.taken == 1 && post.number == 2,
        _ => false,
    }
}

// Whether of two posts the second is left, where the publisher is split and joined again.
fn second_is_left<R: Wait>(
    rt: &R,
    alloc: Global,
    hub: EventHub,
    publisher: Publisher,
    delivery: Delivery,
) -> bool
    requires { (publisher.hub ≡ hub.hub) × (delivery.hub ≡ hub.hub) × (publisher.spare ≡ 63) }
{
    let mut delivery = delivery;
    let (mut first, mut second) = hub.split(publisher);
    let are_split = first.spare() == 62 && second.spare() == 0;
    let are_posted = both_post(rt, alloc, &hub, &mut first, &mut second, &mut delivery);
    let publisher = hub.join(first, second);
    let is_joined = publisher.spare() == 63;
    let left = hub.close(rt, publisher, delivery);
    are_split && are_posted && is_joined && is_second(&left)
}

fn gives_the_rest<R: Wait>(rt: &R, alloc: Global) -> bool {
    match EventHub::new(alloc, 3) {
        Ok((hub, publisher, delivery)) => second_is_left(rt, alloc, hub, publisher, delivery),
        Err(_) => false,
    }
}

#[test]
fn what_two_publishers_left_is_given_back(rt: HostRuntime) {
    assert!(rt; gives_the_rest(&rt, rt.alloc()));
}
