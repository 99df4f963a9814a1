//! What a person at a terminal is shown before a line is read.

use std::io::Eprint;

/// What is shown before a line is read.
pub trait Prompt {
    /// Shows it. That this fails is passed over.
    fn show(&mut self);
}

/// Nothing is shown.
#[derive(Clone, Copy, Debug, Drop)]
pub struct NoPrompt;

impl Prompt for NoPrompt {
    fn show(&mut self) {}
}

/// `osgi> ` on standard error, where a person reads.
#[derive(Drop)]
pub struct StandardPrompt<'r, R> {
    errors: &'r R,
    is_wanted: bool,
}

impl<'r, R> StandardPrompt<'r, R> {
    /// A prompt on the standard error of this runtime, shown where it is wanted: where standard input is a terminal.
    pub fn new(errors: &'r R, is_wanted: bool) -> StandardPrompt<'r, R> {
        StandardPrompt { errors, is_wanted }
    }
}

impl<R: Eprint> Prompt for StandardPrompt<'_, R> {
    fn show(&mut self) {
        if self.is_wanted {
            let _ = self.errors.eprint("osgi> ");
        }
    }
}
