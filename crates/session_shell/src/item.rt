//! What a session notes.
ghost use Rattle.std.specs.Prelude.{◌≡◌, []};

use call_moves::NestedCall;
use prop_map::List;
use shell_lang::ShellReply;
use std::alloc::Global;

/// What a session notes of a line or a request that it answers.
#[derive(Drop)]
pub enum SessionItem {
    /// A line with a reply.
    Line {
        /// The length of the journal at which the reply was decided.
        front: u64,
        /// The reply.
        reply: ShellReply,
        /// The nested calls of the line, in the order in which they began. No line makes any yet.
        nested: List<NestedCall>,
    },
}

/// What a session notes: one item for each line with a reply, in order.
#[derive(Drop)]
pub struct SessionNotes {
    /// The items.
    pub items: List<SessionItem>,
}

impl SessionNotes {
    /// No notes. It takes no memory.
    pub fn new(alloc: Global) -> SessionNotes
        ensures { result.items ≡ [] }
    {
        SessionNotes {
            items: List::of(Vec::new(alloc)),
        }
    }
}
