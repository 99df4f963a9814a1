//! How a run ended, in a sentence.

use script_shell::Status;

/// What a status says, and what to do. Words that are no form have texts of their own, and nothing is said of a good end.
pub(crate) fn sentence(status: &Status) -> Option<&'static str> {
    match status {
        Status::Done => None,
        Status::Usage { .. } => None,
        Status::ReadFault => {
            Some(
                "the input couldn't be read; the lines before it ran, and their replies are written",
            )
        }
        Status::WriteFault => {
            Some("the output took no more; the replies written whole hold for the lines that ran")
        }
        Status::NoMemory => Some("there was no memory; run it with more"),
        Status::JournalFull => Some("the journal has no room for what it does; begin a new run"),
        Status::LineTooLong { .. } => Some("it has more than 1,048,576 bytes; split the document"),
        Status::Unsettled => {
            Some(
                "1,000,000 turns ran, one is still due; with `--manual` run some, and ask `trace 0`",
            )
        }
        Status::Refused { .. } => Some("it was refused, and with `--strict` that ends the run"),
    }
}
