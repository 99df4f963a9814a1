//! How a session ends.

/// How a session ends.
#[derive(Clone, Copy, Debug, PartialEq, Eq, Drop)]
pub enum SessionEnd {
    /// The input ended behind the last line.
    EndOfInput,
    /// The line `quit` was read.
    Quit,
    /// The source failed.
    ReadFault,
    /// The sink failed.
    WriteFault,
    /// The journal has no room for a line's command or for the next turn that is due.
    JournalFull,
    /// A line has more than 1,048,576 bytes before its end.
    LineTooLong {
        /// Its number, from 1 on.
        line: u64,
    },
    /// There was no memory.
    NoMemory,
}
