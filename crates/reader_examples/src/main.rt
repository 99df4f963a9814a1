//! Tables of worked examples: each line of standard input names a reader and gives it texts, and the line of the output in
//! its place is what the reader answers. `stdin` holds the tables and `stdout` the answers that the rules give.
//!
//! | line | answer |
//! |---|---|
//! | `filter TEXT` | `read`, or the fault |
//! | `filter TEXT PROPERTIES` | whether the filter matches the properties, or the first fault of both |
//! | `version TEXT` | its canonical spelling, or the fault |
//! | `range TEXT` | its versions in brackets, or the version from which on all are included, or the fault |
//! | `manifest TEXT` | its headers, or the fault |
//! | `clauses TEXT` | the clauses, or the fault |
//! | `document TEXT` | the bundle's document, or the fault |
//! | `head TEXT` | what the text begins with, read as the head of a request |
//! | `method TEXT` | the method of a request that the text names, or `none` |
//! | `target TEXT` | the path of this target of a request, or `none` |
//!
//! A text is a JSON string, or `bytes HEX` with two digits for each byte. An empty line and one that begins with `#` are
//! answered by themselves, and any other line by a word that says what is wrong with it.
#![tactic(auto)]

mod arguments;
mod readers;
mod replies;

use crate::replies::reply;
use anyhow::Result;
use std::io::{BufReader, BufWriter, Read, Write};
use std::{io, str};

fn main(rt: HostRuntime) -> Result<()> {
    let alloc = rt.alloc();
    let mut input = Vec::new(alloc);
    let _length = BufReader::new(alloc, rt.reader())?.read_to_end(&mut input)?;
    let mut out = BufWriter::new(alloc, io::writer(&rt))?;
    let text = input.strip_suffix(b"\n").unwrap_or(input.as_slice());
    for line in text.split(|byte| *byte == b'\n') {
        match str::from_utf8(line) {
            Ok(line) => writeln!(out, "{}", reply(alloc, line)?)?,
            Err(_) => writeln!(out, "no text")?,
        }
    }
    out.flush()?;
    Ok(())
}
