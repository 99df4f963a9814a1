//! Who is told of a run, and what texts a program has.

use crate::{AskedText, Status};
use prop_map::OutOfMemory;
use shell_lang::ShellReply;
use std::alloc::Global;

/// Who is told of the replies of a run, and of its end. Whatever is done then, the run goes on as it would without.
pub trait Tells {
    /// The line of this number, from 1 on, with these bytes, was refused: this is its reply, and it is written.
    fn refused(&mut self, line: u64, text: &[u8], reply: &ShellReply);

    /// The line of this number, from 1 on, with these bytes, has a reply that is no refusal, and it is written.
    fn answered(&mut self, line: u64, text: &[u8]);

    /// The run ended so, at the line of this number: the one behind those that ran, or the one that was refused; 0 where it isn't
    /// the run of a script.
    fn ended(&mut self, line: u64, status: &Status);
}

// Nobody is told.
#[derive(Drop)]
pub(crate) struct Nobody;

impl Tells for Nobody {
    fn refused(&mut self, _line: u64, _text: &[u8], _reply: &ShellReply) {}

    fn answered(&mut self, _line: u64, _text: &[u8]) {}

    fn ended(&mut self, _line: u64, _status: &Status) {}
}

/// The texts that words can ask for in place of a run.
pub trait Texts {
    /// The text, with the end of its last line.
    ///
    /// # Errors
    /// Only want of memory.
    fn text(&self, alloc: Global, asked: AskedText) -> Result<String, OutOfMemory>;
}
