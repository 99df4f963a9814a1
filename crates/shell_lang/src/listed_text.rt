//! The lines of component configurations with what they wait for.
ghost use Rattle.shell_lang.specs.ListedTexts.{listed_text, shown_names, state_word, waiting_text};
ghost use Rattle.std.specs.Prelude.{◌≡◌, IfOk, string_bytes};

use crate::ListedLine;
use crate::joined_text::joined;
use crate::row_text::Row;
use prop_map::{OutOfMemory, Str};
use std::alloc::Global;

impl Row for ListedLine {
    ghost row_text = { listed_text };

    fn text(&self, alloc: Global) -> Result<String, OutOfMemory> {
        let interfaces = shown_names(alloc, self.interfaces.as_slice())?;
        let waits = shown_names(alloc, self.waits.as_slice())?;
        waiting_text(alloc, self, interfaces.as_str(), waits.as_str())
    }
}

// A component configuration's line with these texts of its interfaces and of what it waits for.
fn waiting_text(
    alloc: Global,
    row: &ListedLine,
    interfaces: &str,
    waits: &str,
) -> Result<String, OutOfMemory>
    ensures { IfOk result (λ text. string_bytes text ≡ waiting_text row.now interfaces.now waits.now) }
{
    let number = row.number;
    let bundle = row.bundle;
    let state = state_word(row.state);
    let name = row.name.as_str();
    format!(in alloc; "{number} {bundle} {state} {name} {interfaces} {waits}\n")
}

fn state_word(state: u8) -> &'static str
    ensures { result.now ≡ state_word state }
{
    match state {
        1 => "unconfigured",
        2 => "unsatisfied",
        8 => "active",
        16 => "failed",
        _ => "satisfied",
    }
}

// Names with commas between them. A hyphen stands for none.
fn shown_names(alloc: Global, names: &[Str]) -> Result<String, OutOfMemory>
    ensures { IfOk result (λ text. string_bytes text ≡ shown_names names.now) }
{
    match names {
        [] => String::from_str(alloc, "-"),
        [_, ..] => joined(alloc, ",", names),
    }
}
