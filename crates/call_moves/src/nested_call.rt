//! A nested call.
use kind_trait::NestedReply;
use prop_map::Str;

/// A call of a service that an instance made while it was asked something.
#[derive(Drop)]
pub struct NestedCall {
    /// The length of the journal at which it was decided whom it reaches.
    pub front: u64,
    /// The service, 0 where none is held for the reference.
    pub service: u64,
    /// What the service was asked.
    pub request: Str,
    /// Its reply, and `None` exactly where the call was under way when the whole became too long.
    pub reply: Option<NestedReply>,
}
