//! What there is to say of a refused line beside its sentence, by reading the line again.

use crate::argument::argument;
use crate::document_hints::tell_of_document;
use crate::excerpt::text_before;
use crate::hints::Hints;
use crate::like_fields::tell_like_fields;
use crate::near_words::Nearest;
use bundle_doc::DocFault;
use ldap_filter::FilterFault;
use prop_map::OutOfMemory;
use serde_json::Value;
use shell_lang::{LINES, LineFault, Refusal};
use std::str;

/// Tells what there is to say of the refusal of this line.
pub(crate) fn tell_of_refusal(
    hints: &mut Hints,
    line: &[u8],
    refusal: &Refusal,
) -> Result<(), OutOfMemory> {
    let Ok(line) = str::from_utf8(line) else {
        return hints.tell(String::from_str(hints.alloc(), "it isn't UTF-8")?);
    };
    if let Refusal::Line {
        fault: LineFault::UnknownCommand,
    } = refusal
    {
        return tell_word(hints, line);
    }
    let Some((at, text)) = argument(line) else {
        return Ok(());
    };
    match refusal {
        Refusal::Line { fault } => tell_of_argument(hints, at, text, fault)?,
        Refusal::Core { .. }
        | Refusal::Call { .. }
        | Refusal::NotManual
        | Refusal::NotBuilt
        | Refusal::NoTurn { .. } => {}
    }
    tell_like_fields(hints, line)
}

// The word of a line that the unknown one looks like.
fn tell_word(hints: &mut Hints, line: &str) -> Result<(), OutOfMemory> {
    let alloc = hints.alloc();
    let mut nearest = Nearest::none();
    for row in LINES {
        nearest.look_at(alloc, first_word(line), first_word(row.0))?;
    }
    hints.tell(match nearest.known() {
        Some(word) => {
            format!(in alloc; "the nearest word is `{word}`; `help {word}` tells its lines")?
        }
        None => String::from_str(alloc, "`help` tells each line of the shell")?,
    })
}

fn first_word(text: &str) -> &str {
    match text.split_once(' ') {
        Some((word, _)) => word,
        None => text,
    }
}

// Where the document, the properties or the filter breaks; the text begins with the word of this number.
fn tell_of_argument(
    hints: &mut Hints,
    at: usize,
    text: &str,
    fault: &LineFault,
) -> Result<(), OutOfMemory> {
    match fault {
        LineFault::NotJson => tell_of_json(hints, at, text),
        LineFault::Document {
            fault: DocFault::NotJson,
        } => tell_of_json(hints, at, text),
        LineFault::Document { fault } => tell_of_document(hints, text, fault),
        LineFault::FilterText { fault } => tell_of_filter(hints, text, *fault),
        _ => Ok(()),
    }
}

fn tell_of_json(hints: &mut Hints, at: usize, text: &str) -> Result<(), OutOfMemory> {
    match Value::from_str(hints.alloc(), text) {
        Ok(_) => Ok(()),
        Err(error) => hints.tell(format!(in hints.alloc();
            "the JSON text from word {at} on: {error}"
        )?),
    }
}

fn tell_of_filter(hints: &mut Hints, text: &str, fault: FilterFault) -> Result<(), OutOfMemory> {
    let hint = match fault {
        FilterFault::BadFilter { at, ended: true } => {
            format!(in hints.alloc();
                "the filter ends too early, behind `{}`",
                text_before(text, at)
            )?
        }
        FilterFault::BadFilter { at, ended: false } => {
            format!(in hints.alloc(); "no filter goes on so behind `{}`", text_before(text, at))?
        }
        FilterFault::TooDeep { at } => {
            format!(in hints.alloc();
                "one bracket too many stands open behind `{}`",
                text_before(text, at)
            )?
        }
        FilterFault::OutOfMemory => return Ok(()),
    };
    hints.tell(hint)
}
