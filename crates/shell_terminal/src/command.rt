//! The words of the program, as `clap` describes them. It makes texts alone: which words are a form `form_of` says.

use clap::builder::ValueParser;
use clap::{Arg, ArgAction, Command};
use std::alloc::{AllocError, Global};

const VERSION: &str = "0.1.0";

/// The command of the program of this name.
pub(crate) fn program<'a>(alloc: Global, name: &'a str) -> Result<Command<'a>, AllocError> {
    Command::new(alloc, name)
        .version(VERSION)
        .about("Runs a service platform in the manner of an OSGi framework, by lines of a shell.")
        .no_binary_name(true)
        .subcommand_required(true)
        .subcommand(script(alloc)?)?
        .subcommand(load(alloc)?)
}

fn script<'a>(alloc: Global) -> Result<Command<'a>, AllocError> {
    Command::new(alloc, "script")
        .about("Runs the lines of standard input, and writes each reply to standard output.")
        .arg(flag(alloc, "manual", "Turns run where a line asks for it alone"))?
        .arg(flag(alloc, "echo", "Writes each line before its reply"))?
        .arg(flag(
            alloc,
            "strict",
            "Ends the run, with status 10, behind the first line that is refused",
        ))?
        .arg(flag(
            alloc,
            "explain",
            "Says on standard error what each refusal means",
        ))
}

// An option that is there or not.
fn flag<'a>(alloc: Global, name: &'a str, help: &'a str) -> Arg<'a> {
    Arg::new(alloc, name)
        .long(name)
        .action(ArgAction::SetTrue)
        .help(help)
}

fn load<'a>(alloc: Global) -> Result<Command<'a>, AllocError> {
    Command::new(alloc, "load")
        .about("Runs lines that it makes itself, and writes four lines of counts.")
        .arg(number(alloc, "SEED", u64::MAX, "What its draws begin with"))?
        .arg(bundles(alloc))?
        .arg(number(
            alloc,
            "COMMANDS",
            100_000,
            "How many commands it gives behind the bundles, up to 100,000",
        ))
}

fn bundles<'a>(alloc: Global) -> Arg<'a> {
    Arg::new(alloc, "BUNDLES")
        .required(true)
        .action(ArgAction::Set)
        .value_parser(ValueParser::unsigned(1, 100))
        .help("How many bundles it installs and starts, 1 to 100")
}

// A number that is needed, up to a greatest one.
fn number<'a>(alloc: Global, name: &'a str, most: u64, help: &'a str) -> Arg<'a> {
    Arg::new(alloc, name)
        .required(true)
        .action(ArgAction::Set)
        .value_parser(ValueParser::unsigned(0, most))
        .help(help)
}
