//! The program: the words of the command line, standard input, whose lines may name files, and standard output, over
//! the component code of the demonstration. How a run ended is told on standard error.
#![tactic(auto)]

use demonstration_kinds::Demonstration;
use fault_count::{StdSink, StdSource};
use file_lines::{FileLines, StandardPrompt, StdFiles};
use shell_terminal::{Status, Terminal, run_program};
use std::io::{ErrorKind, IsTerminal};
use std::process::ExitCode;
use std::rt::Env;
use std::{env, io};

fn main(rt: HostRuntime) -> ExitCode {
    let words = given_words(&rt);
    let reader = rt.reader();
    let prompt = StandardPrompt::new(&rt, reader.is_terminal());
    let lines = StdSource::new(reader);
    run_program(
        rt.alloc(),
        Demonstration,
        &words,
        &mut FileLines::new(rt.alloc(), lines, StdFiles::new(&rt), prompt),
        &mut StdSink::new(io::writer(&rt)),
        &mut Terminal::new(rt.alloc(), &rt, "osgi_run", known(&words)),
    )
}

// The words, none where they can't be read.
fn known(words: &Result<Vec<String>, Status>) -> &[String] {
    match words {
        Ok(words) => words.as_slice(),
        Err(_) => &[],
    }
}

// The words of the command line behind the name of the program, or how it ends where they can't be read.
fn given_words(rt: &(impl Env + AllocGlobal)) -> Result<Vec<String>, Status> {
    let all = match env::args(rt) {
        Ok(all) => all,
        Err(fault) => return Err(status_without_words(fault.kind())),
    };
    let mut words = Vec::new(rt.alloc());
    for word in all.skip(1) {
        if words.push(word).is_err() {
            return Err(Status::NoMemory);
        }
    }
    Ok(words)
}

// How the program ends where the words of the command line can't be read. Words that aren't UTF-8 are no form.
fn status_without_words(fault: ErrorKind) -> Status {
    match fault {
        ErrorKind::OutOfMemory => Status::NoMemory,
        _ => Status::Usage { at: 0 },
    }
}
