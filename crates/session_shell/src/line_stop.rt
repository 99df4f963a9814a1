//! How a line stops its session.

use crate::SessionEnd;

/// How a line stops its session.
#[derive(Clone, Copy)]
pub(crate) enum LineStop {
    /// The journal has no room for its command or for the next of its turns.
    JournalFull,
    /// There was no memory.
    NoMemory,
}

impl From<LineStop> for SessionEnd {
    ghost use Rattle.std.specs.Prelude.{◌≡◌};
    ghost use Rattle.session_shell.specs.Answers.{end_of};

    ghost from_gives = { λ stop end. end ≡ end_of stop };

    fn from(stop: LineStop) -> SessionEnd {
        match stop {
            LineStop::JournalFull => SessionEnd::JournalFull,
            LineStop::NoMemory => SessionEnd::NoMemory,
        }
    }
}
