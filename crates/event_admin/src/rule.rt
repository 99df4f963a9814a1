//! The rule that ties what the queue holds to what publishers and the delivery know. No value of a type of this file is
//! made.
use crate::post::Post;
use crossbeam_queue::protocol::{Join, Lesson, Outcome, Protocol, Split};
use std::collections::LinkedList;

/// A post, and its place in the one list of posts.
pub struct Placed {
    /// How many posts stand before it.
    pub place: u64,
    /// The post.
    pub post: Post,
}

/// What a pass of the queue knows.
pub struct Hand {
    /// Its parts of the 64: one more than a publisher's spare, none of a delivery.
    pub parts: u64,
    /// The posts that the hub took from it.
    pub mine: LinkedList<Placed>,
    /// Those of each publisher that was joined into it.
    pub joined: LinkedList<LinkedList<Placed>>,
    /// Whether it takes posts from the queue.
    pub gets: bool,
    /// The posts that it took from the queue.
    pub taken: LinkedList<Post>,
    /// The list has so many posts at least.
    pub told: u64,
    /// So many were taken from the queue at least.
    pub met: u64,
}

/// The rule of the hub.
pub struct Listed;

impl Protocol<Post, Hand> for Listed {
    ghost use Rattle.event_admin.specs.Hands.{first_hand};
    ghost use Rattle.event_admin.specs.Rule.{OneList};

    ghost holds = { OneList };

    ghost first = { first_hand };
}

/// A post is put at the end of the list, or the queue was full.
pub struct Posts;

impl Outcome<Post, Hand> for Posts {
    ghost use Rattle.event_admin.specs.Hands.{Posted};

    ghost then = { Posted };
}

impl Lesson<Post, Hand> for Posts {
    ghost use Rattle.event_admin.specs.Hands.{Knows};

    ghost fact = { Knows };
}

/// The next post of the list is taken, or none was left.
pub struct Takes;

impl Outcome<Post, Hand> for Takes {
    ghost use Rattle.event_admin.specs.Hands.{Took};

    ghost then = { Took };
}

impl Lesson<Post, Hand> for Takes {
    ghost use Rattle.event_admin.specs.Hands.{Knows};

    ghost fact = { Knows };
}

/// A delivery is cut off the first pass.
pub struct Roles;

impl Split<Hand> for Roles {
    ghost use Rattle.event_admin.specs.Hands.{without_gets, taker};

    ghost left = { without_gets };

    ghost right = { taker };
}

/// A publisher is split off.
pub struct CutOff;

impl Split<Hand> for CutOff {
    ghost use Rattle.event_admin.specs.Hands.{one_less, newcomer};

    ghost left = { one_less };

    ghost right = { newcomer };
}

/// What a pass knows of the list, for another to learn.
pub struct Note;

impl Split<Hand> for Note {
    ghost use Rattle.event_admin.specs.Hands.{note};

    ghost left = { λ v. v };

    ghost right = { note };
}

/// Another pass is taken in, whole.
pub struct TakeIn;

impl Join<Hand> for TakeIn {
    ghost use Rattle.event_admin.specs.Hands.{both, nobody};

    ghost both = { both };

    ghost spent = { nobody };
}
