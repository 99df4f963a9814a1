//! The hub of posts under way to their handlers (OSGi Compendium 8, section 113.7, asynchronous delivery: the posts of
//! one publisher are delivered in its order), and what publishers and its delivery hold of it.
ghost use Rattle.std.specs.Vec.{vec_len, vec_capacity};
ghost use Rattle.crossbeam_queue.specs.Fifo.{Held};
ghost use Rattle.crossbeam_queue.specs.Passes.{view, IsPassOf};
ghost use Rattle.std.specs.Prelude.{◌≡◌, ℕ, ◌+◌, ◌-◌, ◌<◌, ◌≤◌, true, [], ◌∷◌, ◌++◌, length, IfErr, IfOk};
ghost use Rattle.std.specs.Prelude.{MatchOption, MatchResult};
ghost use Rattle.event_admin.specs.Hands.{Accounts, Knows};
ghost use Rattle.event_admin.specs.Views.{IsFull, IsWhole, count_of, joined, met_by, new_delivery, new_publisher};
ghost use Rattle.event_admin.specs.Views.{posted, told_by};

use crate::post::Post;
use crate::rule::{CutOff, Hand, Listed, Note, Posts, Roles, TakeIn, Takes};
use crossbeam_queue::{Pass, RuledArrayQueue};
use prop_map::OutOfMemory;
use std::alloc::Global;
use std::marker::Model;
use std::sync::Wait;

/// The hub had no place left at a step of the call.
#[derive(Clone, Copy, Debug, PartialEq, Eq)]
pub struct EventsFull;

/// A bounded queue of posts between publishers and one delivery. Contracts see which hub it is, and its places. It
/// reads no field of a post.
#[derive(Drop)]
pub struct EventHub {
    queue: RuledArrayQueue<Post, Hand, Listed>,
    room: Vec<Post>,
}

impl Model for EventHub {
    ghost use Rattle.std.specs.Prelude.{◌≡◌, ◌≤◌, ◌<◌};
    ghost use Rattle.std.specs.Vec.{vec_len, vec_capacity};
    ghost use Rattle.crossbeam_queue.specs.Passes.{ruled_capacity};
    ghost use Rattle.event_admin.specs.Views.{HubView};

    ghost Value = { HubView };

    ghost view = { λ h. record { hub = h.queue.table.shared.table_id; places = ruled_capacity h.queue } };

    ghost invariant = { λ h. (vec_len h.room ≡ 0) × (ruled_capacity h.queue ≤ vec_capacity h.room) };
}

/// The right to post. Contracts see which hub it is of, its spare, the posts that the hub took from it with their
/// places in the one list of posts, those of each publisher that was joined into it, and how long the list was at
/// least, and how many posts were taken at least, when it last learned of it. The hub of a publisher that is dropped is
/// never closed.
#[derive(Drop)]
pub struct Publisher {
    pass: Pass<Post, Hand>,
    spare: u64,
}

impl Model for Publisher {
    ghost use Rattle.std.specs.Prelude.{◌≡◌, ◌+◌, ◌<◌, []};
    ghost use Rattle.event_admin.specs.Views.{PublisherView, publisher_of, hand_of};

    ghost Value = { PublisherView };

    ghost view = { λ p. publisher_of p.pass.table_id p.spare p.pass.me.0.client };

    ghost invariant = { λ p. (p.pass.me.1 ≡ [])
        × (p.pass.me.0.client ≡ hand_of (publisher_of p.pass.table_id p.spare p.pass.me.0.client))
        × (p.spare < 64) };
}

/// The right to take posts. Contracts see which hub it is of, the posts that it took, and how long the list of posts
/// was at least when it last learned of it.
#[derive(Drop)]
pub struct Delivery {
    pass: Pass<Post, Hand>,
    taken: u64,
}

impl Model for Delivery {
    ghost use Rattle.std.specs.Prelude.{◌≡◌, [], length};
    ghost use Rattle.event_admin.specs.Views.{DeliveryView, delivery_of, taker_of};

    ghost Value = { DeliveryView };

    ghost view = { λ d. delivery_of d.pass.table_id d.pass.me.0.client };

    ghost invariant = { λ d. (d.taken ≡ length d.pass.me.0.client.taken)
        × (d.pass.me.1 ≡ [])
        × (d.pass.me.0.client ≡ taker_of (delivery_of d.pass.table_id d.pass.me.0.client)) };
}

/// What is left of a hub.
#[derive(Drop)]
pub struct Left {
    /// How many posts the delivery took.
    pub taken: u64,
    /// The posts that it didn't take, in their order.
    pub left: Vec<Post>,
}

impl Publisher {
    /// How many publishers can still be split from it, 63 at most.
    pub fn spare(&self) -> u64
        ensures { result ≡ self.now.spare }
    {
        self.spare
    }
}

impl EventHub {
    /// A hub with so many places, at least one, its first publisher, with a spare of 63, and its delivery. Nothing is
    /// posted.
    ///
    /// # Errors
    /// Only want of memory, which places that are too many count as.
    pub fn new(alloc: Global, places: usize) -> Result<(EventHub, Publisher, Delivery), OutOfMemory>
        requires { 0 < places }
        ensures { IfOk result
            (λ r. (r.0.places ≡ places) × (r.1 ≡ new_publisher r.0.hub) × (r.2 ≡ new_delivery r.0.hub)) }
    {
        let room = Vec::with_capacity(alloc, places)?;
        let (queue, mut pass) = RuledArrayQueue::ruled(alloc, places)?;
        let taker = queue.another::<Roles>(&mut pass);
        Ok((
            EventHub { queue, room },
            Publisher { pass, spare: 63 },
            Delivery {
                pass: taker,
                taken: 0,
            },
        ))
    }

    /// Posts. The post stands behind the publisher's others, at a place behind all that it knew of. It takes no memory,
    /// and may wait.
    ///
    /// # Errors
    /// `EventsFull` only where at a step of this call the hub held as many posts as it has places, in a list that is
    /// true to what the publisher knows: the same post comes back, and nothing changed. The posts of an only publisher
    /// are then at least as many as the places and what it knows was taken.
    pub fn post<R: Wait>(
        &self,
        rt: &R,
        publisher: &mut Publisher,
        post: Post,
    ) -> Result<(), (Post, EventsFull)>
        requires { publisher.old.hub ≡ self.now.hub }
        ensures post { MatchResult result
            (λ _. (k : ℕ) × (publisher.old.told ≤ k) × (publisher.new ≡ posted publisher.old k post))
            (λ e. (e.0 ≡ post) × (publisher.new ≡ publisher.old) × IsFull self.now.places publisher.old) }
        ensures only { IfErr result
            (λ _. publisher.old.spare ≡ 63 → publisher.old.met + self.now.places ≤ count_of publisher.old) }
    {
        match self
            .queue
            .push_as::<Posts, R>(rt, &mut publisher.pass, post)
        {
            Ok(()) => Ok(()),
            Err(back) => Err((back, EventsFull)),
        }
    }

    /// Takes the next post of the list. None: nothing changed, and every post that the delivery was told of was taken.
    /// It takes no memory, and may wait.
    pub fn next<R: Wait>(&self, rt: &R, delivery: &mut Delivery) -> Option<Post>
        requires { delivery.old.hub ≡ self.now.hub }
        ensures { MatchOption result
            ((delivery.new ≡ delivery.old) × (delivery.old.told ≤ length delivery.old.taken))
            (λ x. delivery.new ≡ record delivery.old { taken = delivery.old.taken ++ x ∷ [] }) }
    {
        if delivery.taken == u64::MAX {
            wait_for_ever(rt);
        }
        let post = self.queue.pop_as::<Takes, R>(rt, &mut delivery.pass)?;
        delivery.taken += 1;
        Some(post)
    }

    /// A publisher and the delivery learn of each other how long the list is and how many posts were taken. It does
    /// nothing at run time.
    pub fn meet(&self, publisher: &mut Publisher, delivery: &mut Delivery)
        requires { (publisher.old.hub ≡ self.now.hub) × (delivery.old.hub ≡ self.now.hub) }
        ensures publisher { publisher.new ≡ met_by publisher.old delivery.old }
        ensures delivery { delivery.new ≡ told_by delivery.old publisher.new }
    {
        let theirs = self.queue.another::<Note>(&mut delivery.pass);
        self.queue.absorb::<TakeIn>(&mut publisher.pass, theirs);
        let ours = self.queue.another::<Note>(&mut publisher.pass);
        self.queue.absorb::<TakeIn>(&mut delivery.pass, ours);
    }

    /// Ends the hub, all publishers being joined into one. What the delivery took and what is left are together the
    /// list of posts: each post stands at its place, in its publisher's order, and each place is of one post of one
    /// publisher. It takes no memory, and may wait.
    #[tactic(auto, using(crate::proofs::Moves::whole_of))]
    pub fn close<R: Wait>(self, rt: &R, publisher: Publisher, delivery: Delivery) -> Left
        requires { (publisher.hub ≡ self.hub) × (delivery.hub ≡ self.hub) × (publisher.spare ≡ 63) }
        ensures taken { result.taken ≡ length delivery.taken }
        ensures list { IsWhole publisher (delivery.taken ++ result.left.items) }
    {
        let EventHub { queue, room } = self;
        let Publisher { mut pass, .. } = publisher;
        let Delivery {
            pass: theirs,
            taken,
        } = delivery;
        queue.absorb::<TakeIn>(&mut pass, theirs);
        let count = queue.len_as::<Takes, R>(rt, &mut pass);
        let left = drained(rt, &queue, pass, room, count);
        Left { taken, left }
    }

    /// Splits a publisher off, with a spare of 0 and no posts; the spare of the first falls by one. It takes no memory.
    pub fn split(&self, publisher: Publisher) -> (Publisher, Publisher)
        requires { (publisher.hub ≡ self.now.hub) × (0 < publisher.spare) }
        ensures { (result.0 ≡ record publisher { spare = publisher.spare - 1 })
            × (result.1 ≡ record publisher { spare = 0; mine = []; joined = [] }) }
    {
        let Publisher { mut pass, spare } = publisher;
        let other = self.queue.another::<CutOff>(&mut pass);
        (
            Publisher {
                pass,
                spare: spare - 1,
            },
            Publisher {
                pass: other,
                spare: 0,
            },
        )
    }

    /// Joins a publisher into another: its posts, and those that were joined into it, stand beside the first's, and the
    /// spares add up, and one more. It takes no memory.
    pub fn join(&self, publisher: Publisher, other: Publisher) -> Publisher
        requires { (publisher.hub ≡ self.now.hub) × (other.hub ≡ self.now.hub) }
        ensures { result ≡ joined publisher other }
    {
        let Publisher { mut pass, spare } = publisher;
        let Publisher {
            pass: theirs,
            spare: more,
        } = other;
        self.queue.absorb::<TakeIn>(&mut pass, theirs);
        self.queue.learn_as::<Posts>(&mut pass);
        Publisher {
            pass,
            spare: spare + more + 1,
        }
    }
}

// It is never called: a queue takes fewer than 2^63 values.
fn wait_for_ever<R: Wait>(rt: &R)
    ensures { ⊥ }
{
    for _ in rt.forever() {}
    unreachable!()
}

// Takes all that the queue holds.
fn drained<R: Wait>(
    rt: &R,
    queue: &RuledArrayQueue<Post, Hand, Listed>,
    mut pass: Pass<Post, Hand>,
    room: Vec<Post>,
    count: usize,
) -> Vec<Post>
    requires pass { IsPassOf queue.now pass × ((view pass).gets ≡ true) × ((view pass).parts ≡ 64) }
    requires room { (vec_len room ≡ 0) × (count ≤ vec_capacity room) }
    requires knows { Held count (Knows (view pass)) }
    ensures { Accounts (view pass) ((view pass).taken ++ result.items) }
{
    let mut left = room;
    for _ in 0..count {
        match queue.pop_as::<Takes, R>(rt, &mut pass) {
            Some(post) => left.push_reserved(post),
            None => return left,
        }
    }
    queue.learn_as::<Takes>(&mut pass);
    left
}
