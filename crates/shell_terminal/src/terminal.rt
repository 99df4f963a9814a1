//! Who tells people of a run.

use crate::command::program;
use crate::hints::Hints;
use crate::like_fields::tell_like_fields;
use crate::refusal_hints::tell_of_refusal;
use crate::sentences::sentence;
use clap::Error;
use prop_map::OutOfMemory;
use script_shell::{AskedText, Status, Tells, Texts};
use shell_lang::{Refusal, ShellReply, write_reply};
use std::alloc::Global;

/// Tells people on standard error how a run ended, and with `--explain` what each refusal means, and what documents pass over.
#[derive(Drop)]
pub struct Terminal<'t, R> {
    runtime: &'t R,
    alloc: Global,
    program: &'t str,
    words: &'t [String],
    explains: bool,
}

impl<'t, R: Eprint> Terminal<'t, R> {
    /// For a run that these words ask for, behind the name of the program.
    pub fn new(
        alloc: Global,
        runtime: &'t R,
        program: &'t str,
        words: &'t [String],
    ) -> Terminal<'t, R> {
        Terminal {
            runtime,
            alloc,
            program,
            words,
            explains: words.iter().any(|word| word.as_str() == "--explain"),
        }
    }

    // Says a sentence on a line, or on none where it has no number.
    fn say(&self, line: u64, sentence: &str) {
        let _ = if line == 0 {
            eprintln!(self.runtime; "{sentence}")
        } else {
            eprintln!(self.runtime; "line {line}: {sentence}")
        };
    }

    // Says from which word on the words are no form, and why.
    fn say_words(&self, at: u64) {
        let told = match program(self.alloc, self.program) {
            Ok(command) => match command.try_get_matches_from(self.words) {
                Ok(_) => false,
                Err(error) => self.say_error(at, &error),
            },
            Err(_) => false,
        };
        if !told {
            let _ = eprintln!(self.runtime;
                "word {at}: the words are no form of the program; `--help` tells them"
            );
        }
    }

    // Says what `clap` finds wrong, where it finds something.
    fn say_error(&self, at: u64, error: &Error) -> bool {
        if !error.use_stderr() {
            return false;
        }
        let _ = eprint!(self.runtime; "word {at}: {error}");
        true
    }

    fn explain(&self, line: u64, name: &str, refusal: &Refusal) {
        let _ = match refusal {
            Refusal::Line { fault } => eprintln!(self.runtime; "line {line}: {name}: {fault}"),
            Refusal::Core { fault } => eprintln!(self.runtime; "line {line}: {name}: {fault}"),
            Refusal::Call { fault } => eprintln!(self.runtime; "line {line}: {name}: {fault}"),
            Refusal::NotManual => {
                eprintln!(self.runtime;
                    "line {line}: {name}: the line is one of `script --manual` alone"
                )
            }
            Refusal::NotBuilt => {
                eprintln!(self.runtime;
                    "line {line}: {name}: the form isn't built in a session yet"
                )
            }
            Refusal::NoTurn { turn } => {
                eprintln!(self.runtime; "line {line}: {name}: no turn {turn} is under way")
            }
        };
    }

    // Says what there is to say beside that, each on a line of its own; where memory is wanting, what there was before.
    fn hint(&self, line: u64, text: &[u8], refusal: &Refusal) {
        let mut hints = Hints::new(self.alloc);
        let _ = tell_of_refusal(&mut hints, text, refusal);
        self.say_each(line, &hints);
    }

    // Says which fields the document of a line passes over.
    fn hint_at_fields(&self, line: u64, text: &[u8]) {
        let Ok(text) = str::from_utf8(text) else {
            return;
        };
        let mut hints = Hints::new(self.alloc);
        let _ = tell_like_fields(&mut hints, text);
        self.say_each(line, &hints);
    }

    fn say_each(&self, line: u64, hints: &Hints) {
        for hint in hints.texts() {
            self.say(line, hint.as_str());
        }
    }
}

impl<R: Eprint> Tells for Terminal<'_, R> {
    fn refused(&mut self, line: u64, text: &[u8], reply: &ShellReply) {
        if !self.explains {
            return;
        }
        if let ShellReply::Refused(refusal) = reply {
            if let Ok(told) = write_reply(self.alloc, reply) {
                self.explain(line, name_in(told.as_slice()), refusal);
            }
            self.hint(line, text, refusal);
        }
    }

    fn answered(&mut self, line: u64, text: &[u8]) {
        if self.explains {
            self.hint_at_fields(line, text);
        }
    }

    fn ended(&mut self, line: u64, status: &Status) {
        if let Status::Usage { at } = status {
            self.say_words(*at);
        }
        if let Some(told) = sentence(status) {
            self.say(line, told);
        }
    }
}

impl<R> Texts for Terminal<'_, R> {
    fn text(&self, alloc: Global, asked: AskedText) -> Result<String, OutOfMemory> {
        match program(alloc, self.program)?.try_get_matches_from(words_for(asked)) {
            Ok(_) => Ok(String::new(alloc)),
            Err(error) => format!(in alloc; "{error}"),
        }
    }
}

// The name of a refusal and its fields, in the text of its reply.
fn name_in(reply: &[u8]) -> &str {
    let Ok(text) = str::from_utf8(reply) else {
        return "";
    };
    let line = match text.split_once('\n') {
        Some((line, _)) => line,
        None => text,
    };
    line.strip_prefix("refused ").unwrap_or(line)
}

static PROGRAM: [&str; 1] = ["--help"];

static SCRIPT: [&str; 2] = ["script", "--help"];

static LOAD: [&str; 2] = ["load", "--help"];

static VERSION: [&str; 1] = ["--version"];

// The words to which `clap` has a text.
fn words_for(asked: AskedText) -> &'static [&'static str] {
    match asked {
        AskedText::Program => &PROGRAM,
        AskedText::Script => &SCRIPT,
        AskedText::Load => &LOAD,
        AskedText::Version => &VERSION,
    }
}
