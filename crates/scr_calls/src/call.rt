//! What calls and requests are answered.
use call_moves::NestedCall;
use http_wire::Answered;
use prop_map::{List, Str};

/// What a call is answered.
#[derive(Drop)]
pub struct Called {
    /// The length of the journal at which it was decided whom the call reaches.
    pub front: u64,
    /// The text of the answer.
    pub text: Str,
    /// The nested calls, in the order in which they began.
    pub nested: List<NestedCall>,
}

/// What a request is answered.
#[derive(Drop)]
pub struct HallAnswer {
    /// The length of the journal at which the servlet was chosen.
    pub front: u64,
    /// The service of the servlet that was chosen, 0 where there is none.
    pub service: u64,
    /// The nested calls, in the order in which they began.
    pub nested: List<NestedCall>,
    /// The answer.
    pub answer: Answered,
}
