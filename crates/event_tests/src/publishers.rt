//! Two publishers in threads of their own, and a third thread that takes what they post.
ghost use Rattle.std.specs.Thread.{IsSync};
ghost use Rattle.std.specs.Prelude.{◌≡◌};

use crate::samples::post;
use event_admin::{Delivery, EventHub, Left, Post, Publisher};
use std::alloc::Global;
use std::sync::Wait;
use std::sync::atomic::{AtomicBool, Ordering};
use std::thread;
use std::thread::{Threads, join};

// How many posts each publisher has.
const POSTS: u64 = 1000;

// A publisher, and how many posts the hub took from it.
#[derive(Drop)]
struct Sent {
    publisher: Publisher,
    count: u64,
}

// How many posts of each of two publishers came, and whether one came out of its order.
#[derive(Clone, Copy, Drop)]
struct Tally {
    first: u64,
    second: u64,
    amiss: bool,
}

// The delivery, and what it took.
#[derive(Drop)]
struct Received {
    delivery: Delivery,
    tally: Tally,
}

impl Tally {
    fn new() -> Tally {
        Tally {
            first: 0,
            second: 0,
            amiss: false,
        }
    }

    fn count(&self) -> u64 {
        self.first.saturating_add(self.second)
    }

    fn note(&mut self, post: &Post) {
        if post.publisher == 1 && post.number == self.first {
            self.first = self.first.saturating_add(1);
        } else if post.publisher == 2 && post.number == self.second {
            self.second = self.second.saturating_add(1);
        } else {
            self.amiss = true;
        }
    }
}

// Posts again while the hub is full, until it takes the post or nobody takes posts any more. It tells whether it was
// taken.
fn post_until<R: Wait>(
    rt: &R,
    hub: &EventHub,
    publisher: &mut Publisher,
    post: Post,
    ended: &AtomicBool,
) -> bool
    requires { publisher.old.hub ≡ hub.now.hub }
    ensures { (publisher.new.hub ≡ publisher.old.hub) × (publisher.new.spare ≡ publisher.old.spare) }
{
    let mut post = post;
    for _ in rt.forever() {
        match hub.post(rt, publisher, post) {
            Ok(()) => return true,
            Err((back, _)) => post = back,
        }
        if ended.load(Ordering::SeqCst) {
            return false;
        }
        thread::yield_now();
    }
    unreachable!()
}

// Posts its numbers one after the other.
fn send<R: Wait>(
    rt: &R,
    alloc: Global,
    hub: &EventHub,
    publisher: Publisher,
    name: u64,
    ended: &AtomicBool,
) -> Sent
    requires { publisher.hub ≡ hub.now.hub }
    ensures { (result.publisher.hub ≡ publisher.hub) × (result.publisher.spare ≡ publisher.spare) }
{
    let mut publisher = publisher;
    let mut count = 0;
    for number in 0..POSTS {
        match post(alloc, name, number) {
            Some(post) => {
                if !post_until(rt, hub, &mut publisher, post, ended) {
                    break;
                }
            }
            None => break,
        }
        count = number + 1;
    }
    Sent { publisher, count }
}

// Takes so many posts, and tells that it has ended.
fn receive<R: Wait>(
    rt: &R,
    hub: &EventHub,
    delivery: Delivery,
    count: u64,
    ended: &AtomicBool,
) -> Received
    requires { delivery.hub ≡ hub.now.hub }
    ensures { result.delivery.hub ≡ delivery.hub }
{
    let mut delivery = delivery;
    let mut tally = Tally::new();
    for _ in rt.forever() {
        if tally.amiss || tally.count() >= count {
            break;
        }
        match hub.next(rt, &mut delivery) {
            Some(post) => tally.note(&post),
            None => thread::yield_now(),
        }
    }
    ended.store(true, Ordering::SeqCst);
    Received { delivery, tally }
}

// What two publishers and the delivery of a hub did, each in a thread of its own: it takes so many posts.
fn run_all<R: Threads + Wait + Sync>(
    rt: &R,
    alloc: Global,
    hub: &EventHub,
    publishers: (Publisher, Publisher),
    delivery: Delivery,
    count: u64,
) -> (Sent, Sent, Received)
    requires { (publishers.0.hub ≡ hub.now.hub) × (publishers.1.hub ≡ hub.now.hub) × (delivery.hub ≡ hub.now.hub) }
    ensures first { (result.0.publisher.hub ≡ publishers.0.hub) × (result.0.publisher.spare ≡ publishers.0.spare) }
    ensures second { (result.1.publisher.hub ≡ publishers.1.hub) × (result.1.publisher.spare ≡ publishers.1.spare) }
    ensures received { result.2.delivery.hub ≡ delivery.hub }
{
    let (first, second) = publishers;
    let ended = AtomicBool::new(false);
    let ended = &ended;
    let (first, (second, received)) = join(
        rt,
        move || -> Sent
            requires { first.hub ≡ hub.now.hub }
            ensures { (result.publisher.hub ≡ first.hub) × (result.publisher.spare ≡ first.spare) }
        { send(rt, alloc, hub, first, 1, ended) },
        move || -> (Sent, Received)
            requires { IsSync R.row × (second.hub ≡ hub.now.hub) × (delivery.hub ≡ hub.now.hub) }
            ensures { (result.0.publisher.hub ≡ second.hub)
                × (result.0.publisher.spare ≡ second.spare)
                × (result.1.delivery.hub ≡ delivery.hub) }
        { send_and_receive(rt, alloc, hub, second, delivery, count, ended) },
    );
    (first, second, received)
}

// What the second publisher and the delivery did.
fn send_and_receive<R: Threads + Wait + Sync>(
    rt: &R,
    alloc: Global,
    hub: &EventHub,
    second: Publisher,
    delivery: Delivery,
    count: u64,
    ended: &AtomicBool,
) -> (Sent, Received)
    requires { (second.hub ≡ hub.now.hub) × (delivery.hub ≡ hub.now.hub) }
    ensures { (result.0.publisher.hub ≡ second.hub)
        × (result.0.publisher.spare ≡ second.spare)
        × (result.1.delivery.hub ≡ delivery.hub) }
{
    join(
        rt,
        move || -> Sent
            requires { second.hub ≡ hub.now.hub }
            ensures { (result.publisher.hub ≡ second.hub) × (result.publisher.spare ≡ second.spare) }
        { send(rt, alloc, hub, second, 2, ended) },
        move || -> Received
            requires { delivery.hub ≡ hub.now.hub }
            ensures { result.delivery.hub ≡ delivery.hub }
        { receive(rt, hub, delivery, count, ended) },
    )
}

// What each publisher posted, what the delivery took, and what was left then.
#[derive(Drop)]
struct Ended {
    first: u64,
    second: u64,
    tally: Tally,
    left: Left,
}

impl Ended {
    fn is_all(&self) -> bool {
        self.tally.first == 1000
            && self.tally.second == 1000
            && !self.tally.amiss
            && self.left.taken == 2000
            && self.left.left.len() == 0
    }

    // Whether a thousand were taken, and with what is left they are all that was posted.
    fn is_whole(&self) -> bool {
        let mut tally = self.tally;
        let is_half = self.left.taken == 1000 && tally.count() == 1000;
        for post in self.left.left.as_slice() {
            tally.note(post);
        }
        is_half && tally.first == self.first && tally.second == self.second && !tally.amiss
    }
}

// What a hub comes to whose delivery takes so many posts.
fn outcome<R: Threads + Wait + Sync>(
    rt: &R,
    alloc: Global,
    hub: EventHub,
    publisher: Publisher,
    delivery: Delivery,
    count: u64,
) -> Ended
    requires { (publisher.hub ≡ hub.hub) × (delivery.hub ≡ hub.hub) × (publisher.spare ≡ 63) }
{
    let publishers = hub.split(publisher);
    let (first, second, received) = run_all(rt, alloc, &hub, publishers, delivery, count);
    let publisher = hub.join(first.publisher, second.publisher);
    let left = hub.close(rt, publisher, received.delivery);
    Ended {
        first: first.count,
        second: second.count,
        tally: received.tally,
        left,
    }
}

// The same in a new hub, nothing where there is no memory.
fn run<R: Threads + Wait + Sync>(rt: &R, alloc: Global, count: u64) -> Option<Ended> {
    match EventHub::new(alloc, 4) {
        Ok((hub, publisher, delivery)) => Some(outcome(rt, alloc, hub, publisher, delivery, count)),
        Err(_) => None,
    }
}

fn takes_all<R: Threads + Wait + Sync>(rt: &R, alloc: Global) -> bool {
    match run(rt, alloc, 2000) {
        Some(ended) => ended.is_all(),
        None => false,
    }
}

#[test]
fn a_third_thread_takes_all(rt: HostRuntime) {
    assert!(rt; takes_all(&rt, rt.alloc()));
}

fn are_whole<R: Threads + Wait + Sync>(rt: &R, alloc: Global) -> bool {
    match run(rt, alloc, 1000) {
        Some(ended) => ended.is_whole(),
        None => false,
    }
}

#[test]
fn what_was_taken_and_what_is_left_are_the_whole(rt: HostRuntime) {
    assert!(rt; are_whole(&rt, rt.alloc()));
}
