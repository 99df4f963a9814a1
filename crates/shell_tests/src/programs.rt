//! The program over ends in memory.

use crate::ends::{given, sink};
use demonstration_kinds::Demonstration;
use fault_count::{MemorySink, MemorySource};
use prop_map::OutOfMemory;
use script_shell::{AskedText, Status, Tells, Texts, run_program};
use shell_lang::ShellReply;
use std::alloc::Global;

// Nobody is told, and there is one text.
#[derive(Drop)]
struct Quiet;

impl Tells for Quiet {
    fn refused(&mut self, _line: u64, _text: &[u8], _reply: &ShellReply) {}

    fn answered(&mut self, _line: u64, _text: &[u8]) {}

    fn ended(&mut self, _line: u64, _status: &Status) {}
}

impl Texts for Quiet {
    fn text(&self, alloc: Global, _asked: AskedText) -> Result<String, OutOfMemory> {
        String::from_str(alloc, "a text\n")
    }
}

// The word as the words of a program.
fn words_of(alloc: Global, word: &str) -> Result<Vec<String>, Status> {
    match one_word(alloc, word) {
        Ok(words) => Ok(words),
        Err(_) => Err(Status::NoMemory),
    }
}

fn one_word(alloc: Global, word: &str) -> Result<Vec<String>, OutOfMemory> {
    let mut words = Vec::new(alloc);
    words.push(String::from_str(alloc, word)?)?;
    Ok(words)
}

// Runs the program on these words and this input, four bytes a read.
fn run(alloc: Global, words: &Result<Vec<String>, Status>, input: &str, output: &mut MemorySink) {
    let mut input = MemorySource::new(given(alloc, input.as_bytes()), 4, Vec::new(alloc));
    let _code = run_program(alloc, Demonstration, words, &mut input, output, &mut Quiet);
}

// Whether the program writes this where it is given these words and this input.
fn writes(alloc: Global, word: &str, input: &str, wanted: &[u8]) -> bool {
    let words = words_of(alloc, word);
    let mut output = sink(alloc, 4, &[]);
    run(alloc, &words, input, &mut output);
    output.written() == wanted
}

#[test]
fn the_program_answers_its_lines(rt: HostRuntime) {
    let alloc = rt.alloc();
    assert!(rt;
        writes(
            alloc,
            "script",
            "components\nsettle\n",
            b"ok 0\nok turns 0\n"
        ) && writes(alloc, "scrip", "components\n", b"")
            && writes(alloc, "--help", "components\n", b"a text\n")
    );
}
