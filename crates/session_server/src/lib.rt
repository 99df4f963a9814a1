//! A server of sessions: connections that come through doors, each served by a session on a platform that all share.
//!
//! [`serve_door`] is what one thread does with one door: it takes a connection, holds a session of it, hands that back,
//! and takes the next one.
#![tactic(auto)]

mod door_loop;

pub use door_loop::{DoorEnd, serve_door};
