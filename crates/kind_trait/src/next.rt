//! What a request comes to.

use prop_map::Str;

/// What a request comes to once the nested calls that were made so far have their replies.
#[derive(Debug, PartialEq, Eq, Drop)]
pub enum Next<W> {
    /// It is answered.
    Answer {
        /// The text of the answer.
        text: Str,
    },
    /// It needs the reply of a further nested call.
    Call {
        /// The name of the reference whose best held service is called.
        reference: Str,
        /// What the service is asked.
        request: Str,
        /// What is left to do with the reply.
        work: W,
    },
}
