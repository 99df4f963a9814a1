//! The counts of a load, as a text.
ghost use Rattle.std.specs.Prelude.{◌≡◌, IfOk, string_bytes};
ghost use Rattle.shell_lang.specs.Loads.{answered_text, counts_text, journal_text, states_text};

use prop_map::OutOfMemory;
use std::alloc::Global;

/// What a load tells behind its last line.
#[derive(Clone, Copy, Debug, PartialEq, Eq)]
pub struct LoadCounts {
    /// How many lines ran.
    pub lines: u64,
    /// How many of their replies aren't refusals.
    pub accepted: u64,
    /// How many are.
    pub refused: u64,
    /// How many entries the journal has.
    pub records: u64,
    /// How many turns began in it.
    pub turns: u64,
    /// How many component configurations are satisfied.
    pub satisfied: u64,
    /// How many are active.
    pub active: u64,
}

/// The four lines of the counts, each with its end.
///
/// # Errors
/// Only want of memory.
pub fn write_counts(alloc: Global, counts: &LoadCounts) -> Result<Vec<u8>, OutOfMemory>
    ensures { IfOk result (λ bytes. bytes.items ≡ counts_text counts.now) }
{
    Ok(counts_text(alloc, *counts)?.into_bytes())
}

fn counts_text(alloc: Global, counts: LoadCounts) -> Result<String, OutOfMemory>
    ensures { IfOk result (λ text. string_bytes text ≡ counts_text counts) }
{
    let mut text = answered_text(alloc, counts.lines, counts.accepted, counts.refused)?;
    text.push_str(journal_text(alloc, counts.records, counts.turns)?.as_str())?;
    text.push_str(states_text(alloc, counts.satisfied, counts.active)?.as_str())?;
    Ok(text)
}

fn answered_text(
    alloc: Global,
    lines: u64,
    accepted: u64,
    refused: u64,
) -> Result<String, OutOfMemory>
    ensures { IfOk result (λ text. string_bytes text ≡ answered_text lines accepted refused) }
{
    format!(in alloc; "commands {lines} ok {accepted} refused {refused}\n")
}

fn journal_text(alloc: Global, records: u64, turns: u64) -> Result<String, OutOfMemory>
    ensures { IfOk result (λ text. string_bytes text ≡ journal_text records turns) }
{
    format!(in alloc; "records {records}\nturns {turns}\n")
}

fn states_text(alloc: Global, satisfied: u64, active: u64) -> Result<String, OutOfMemory>
    ensures { IfOk result (λ text. string_bytes text ≡ states_text satisfied active) }
{
    format!(in alloc; "satisfied {satisfied} active {active}\n")
}
