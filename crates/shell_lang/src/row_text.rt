//! The rows that a reply tells, each on a line of its own.
ghost use Rattle.std.specs.Prelude.{◌≡◌, IfOk, codes, string_bytes};
ghost use Rattle.shell_lang.specs.Help.{help_text};
ghost use Rattle.shell_lang.specs.RowTexts.{bundle_event_text, bundle_text, component_text, held_text, listener_text, number_text, placed_rows_text, registered_text, rows_text, service_event_text, versioned_text};

use crate::joined_text::joined;
use crate::{LineHelp, ListenerLine};
use bundle_life::BundleEvent;
use prop_map::OutOfMemory;
use scr_world::{BundleLine, ComponentLine, HeldLine};
use service_listeners::ServiceEvent;
use service_registry::{ServiceRow, ranking};
use std::alloc::{AllocError, Global};

// What is told on a line of its own.
pub(crate) trait Row {
    ghost use Rattle.std.specs.Prelude.{List, ℕ};

    ghost row_text: { Self → List ℕ };

    // The line, with its end.
    fn text(&self, alloc: Global) -> Result<String, OutOfMemory>
        ensures { IfOk result (λ text. string_bytes text ≡ row_text self.now) };
}

impl Row for LineHelp {
    ghost row_text = { help_text };

    fn text(&self, alloc: Global) -> Result<String, OutOfMemory> {
        let words = self.words.as_str();
        let sentence = self.sentence.as_str();
        format!(in alloc; "{words}: {sentence}\n")
    }
}

impl Row for BundleLine {
    ghost row_text = { bundle_text };

    fn text(&self, alloc: Global) -> Result<String, OutOfMemory> {
        let version = self.version.text(alloc)?;
        versioned_text(alloc, self, version.as_str())
    }
}

impl Row for ServiceEvent {
    ghost row_text = { service_event_text };

    fn text(&self, alloc: Global) -> Result<String, OutOfMemory> {
        let value = self.value;
        let service = self.service;
        format!(in alloc; "{value} {service}\n")
    }
}

// A bundle's line with this text of its version.
fn versioned_text(alloc: Global, row: &BundleLine, version: &str) -> Result<String, OutOfMemory>
    ensures { IfOk result (λ text. string_bytes text ≡ versioned_text row.now version.now) }
{
    let bundle = row.bundle;
    let state = row.state;
    let name = row.name.as_str();
    format!(in alloc; "{bundle} {state} {name} {version}\n")
}

impl Row for BundleEvent {
    ghost row_text = { bundle_event_text };

    fn text(&self, alloc: Global) -> Result<String, OutOfMemory> {
        let value = self.value;
        let bundle = self.bundle;
        format!(in alloc; "{value} {bundle}\n")
    }
}

impl Row for ComponentLine {
    ghost row_text = { component_text };

    fn text(&self, alloc: Global) -> Result<String, OutOfMemory> {
        let configuration = self.configuration;
        let name = self.name.as_str();
        let state = u64::from(self.state);
        format!(in alloc; "{configuration} {name} {state}\n")
    }
}

impl Row for HeldLine {
    ghost row_text = { held_text };

    fn text(&self, alloc: Global) -> Result<String, OutOfMemory> {
        let instance = self.instance;
        let reference = self.reference.as_str();
        let service = self.service;
        format!(in alloc; "{instance} {reference} {service}\n")
    }
}

impl Row for ServiceRow {
    ghost row_text = { registered_text };

    fn text(&self, alloc: Global) -> Result<String, OutOfMemory> {
        let service = self.id;
        let bundle = self.bundle;
        let interfaces = joined(alloc, ",", self.interfaces.names())?;
        let ranking = ranking(&self.properties);
        format!(in alloc; "{service} {bundle} {} {ranking}\n", interfaces.as_str())
    }
}

impl Row for ListenerLine {
    ghost row_text = { listener_text };

    fn text(&self, alloc: Global) -> Result<String, OutOfMemory> {
        let listener = self.listener;
        let bundle = self.bundle;
        let told = self.told;
        format!(in alloc; "{listener} {bundle} {told}\n")
    }
}

impl Row for u64 {
    ghost row_text = { number_text };

    fn text(&self, alloc: Global) -> Result<String, OutOfMemory> {
        let number = *self;
        format!(in alloc; "{number}\n")
    }
}

// The number of rows, and a line for each.
pub(crate) fn rows_text<R: Row>(alloc: Global, rows: &[R]) -> Result<String, OutOfMemory>
    ensures { IfOk result (λ text. string_bytes text ≡ rows_text R.row_text rows.now) }
{
    let mut text = format!(in alloc; "ok {}\n", rows.len())?;
    for row in rows {
        text.push_str(row.text(alloc)?.as_str())?;
    }
    Ok(text)
}

// The number of rows behind so many others, and a line for each with its position. A position that is no number of 64 bits
// counts as want of memory.
pub(crate) fn placed_rows_text<R: Row>(
    alloc: Global,
    before: u64,
    rows: &[R],
) -> Result<String, OutOfMemory>
    ensures { IfOk result (λ text. string_bytes text ≡ placed_rows_text R.row_text before rows.now) }
{
    let mut text = format!(in alloc; "ok {}\n", rows.len())?;
    let mut position = before;
    for row in rows {
        position = position.checked_add(1).ok_or(AllocError)?;
        text.push_str(format!(in alloc; "{position} ")?.as_str())?;
        text.push_str(row.text(alloc)?.as_str())?;
    }
    Ok(text)
}
