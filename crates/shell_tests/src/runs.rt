//! Runs of scripts over a source and a sink in memory.

use crate::ends::{sink, source};
use fault_count::{MemorySink, MemorySource};
use kind_trait::Kinds;
use script_shell::{Platform, Status, Tells, run_script, run_told};
use shell_lang::ShellReply;
use std::alloc::Global;

/// What is told of a run: how many lines were refused, and the number of the last of them; the same of the lines that have
/// another reply; and where and how the run ended.
#[derive(Clone, Copy, PartialEq, Eq, Drop)]
pub(crate) struct Heard {
    pub(crate) refusals: u64,
    pub(crate) refused: u64,
    pub(crate) answers: u64,
    pub(crate) answered: u64,
    pub(crate) ended: u64,
    pub(crate) code: u8,
}

impl Heard {
    // What is heard of a run of which nobody is told: the number that it ends with.
    fn end(code: u8) -> Heard {
        Heard {
            refusals: 0,
            refused: 0,
            answers: 0,
            answered: 0,
            ended: 0,
            code,
        }
    }
}

impl Tells for Heard {
    fn refused(&mut self, line: u64, _text: &[u8], _reply: &ShellReply) {
        self.refusals = self.refusals.saturating_add(1);
        self.refused = line;
    }

    fn answered(&mut self, line: u64, _text: &[u8]) {
        self.answers = self.answers.saturating_add(1);
        self.answered = line;
    }

    fn ended(&mut self, line: u64, status: &Status) {
        self.ended = line;
        self.code = status.code();
    }
}

/// What is to be heard of a run.
#[derive(Clone, Copy)]
pub(crate) enum Wanted {
    /// That it ends with this number.
    Code(u8),
    /// All of this.
    Heard(Heard),
}

impl Wanted {
    fn is(&self, heard: &Heard) -> bool {
        match self {
            Wanted::Code(code) => heard.code == *code,
            Wanted::Heard(wanted) => heard == wanted,
        }
    }
}

/// How much of its replies a run writes.
#[derive(Clone, Copy)]
pub(crate) enum Front {
    /// So many bytes.
    Bytes(usize),
    /// A front of them.
    Some,
}

/// The words of a script, its lines, what it is answered, which reads and writes fail, and what it comes to.
#[derive(Clone, Copy)]
pub(crate) struct Script<'s> {
    pub(crate) words: &'s [&'s str],
    pub(crate) lines: &'s str,
    pub(crate) replies: &'s [u8],
    pub(crate) reads: &'s [u64],
    pub(crate) writes: &'s [u64],
    /// Whether someone is told of the run.
    pub(crate) is_told: bool,
    pub(crate) wanted: Wanted,
    pub(crate) front: Front,
}

impl Script<'_> {
    // Whether as much of the replies is written as is to be, and nothing else.
    fn writes(&self, written: &[u8]) -> bool {
        let right = match self.front {
            Front::Bytes(count) => written.len() == count,
            Front::Some => true,
        };
        right && self.replies.starts_with(written)
    }
}

// Runs a script of which nobody is told.
fn quietly<K: Kinds + Drop>(
    alloc: Global,
    platform: &mut Platform<K>,
    words: &[&str],
    input: &mut MemorySource,
    output: &mut MemorySink,
) -> Heard {
    Heard::end(run_script(alloc, platform, words, input, output).code())
}

// Runs a script of which someone is told.
fn told<K: Kinds + Drop>(
    alloc: Global,
    platform: &mut Platform<K>,
    words: &[&str],
    input: &mut MemorySource,
    output: &mut MemorySink,
) -> Heard {
    let mut heard = Heard::end(99);
    run_told(alloc, platform, words, input, output, &mut heard);
    heard
}

// Whether a run of the script comes to what it is to.
pub(crate) fn runs<K: Kinds + Drop>(
    alloc: Global,
    platform: &mut Platform<K>,
    script: &Script<'_>,
) -> bool {
    let mut input = source(alloc, script.lines, script.reads);
    let mut output = sink(alloc, 5, script.writes);
    let heard = if script.is_told {
        told(alloc, platform, script.words, &mut input, &mut output)
    } else {
        quietly(alloc, platform, script.words, &mut input, &mut output)
    };
    script.wanted.is(&heard) && script.writes(output.written())
}
