//! What is posted.
use crate::Event;

/// An event under way to its handlers.
#[derive(Drop)]
pub struct Post {
    /// Who posts it.
    pub publisher: u64,
    /// Its number among the posts of its publisher.
    pub number: u64,
    /// The length of the journal at which its handlers were found.
    pub front: u64,
    /// The event.
    pub event: Event,
    /// The services that handle it, best first.
    pub handlers: Vec<u64>,
}
