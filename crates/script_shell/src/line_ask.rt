//! What the next line asks.
ghost use Rattle.script_shell.specs.Carries.{ReadsAsk};

use shell_lang::{LineFault, ShellLine, read_line};
use std::alloc::Global;

/// What reading what a line asks gave.
#[derive(Drop)]
pub enum AskStep {
    /// What the line asks, or why it asks nothing that it can have.
    Asked(Result<ShellLine, LineFault>),
    /// To end the run.
    Quit,
    /// There was no memory.
    NoMemory,
}

/// What a line asks.
pub fn read_ask(alloc: Global, line: &[u8]) -> AskStep
    ensures { ReadsAsk line.now result }
{
    match read_line(alloc, line) {
        Ok(asked) => match asked {
            ShellLine::Quit => AskStep::Quit,
            asked => AskStep::Asked(Ok(asked)),
        },
        Err(fault) => match fault {
            LineFault::OutOfMemory => AskStep::NoMemory,
            fault => AskStep::Asked(Err(fault)),
        },
    }
}
