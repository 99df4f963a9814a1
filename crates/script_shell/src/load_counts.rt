//! The counts of a load.
ghost use Rattle.script_shell.specs.LoadLines.{TellsCounts};
ghost use Rattle.script_shell.specs.Loads.{counts_with, text_of_counts};
ghost use Rattle.script_shell.specs.Statuses.{write_faults_after};
ghost use Rattle.std.specs.Prelude.{◌≡◌, IfOk};

use crate::journal_replay::{active_among, replayed, turns_in};
use crate::load_answers::Answered;
use crate::reply_output::write_all;
use crate::{Platform, Status};
use fault_count::Sink;
use kind_trait::Kinds;
use prop_map::OutOfMemory;
use shell_lang::{LoadCounts, write_counts};
use std::alloc::Global;

/// Writes the four lines of the counts, with what the journal comes to now.
pub(crate) fn tell_counts<K: Kinds + Drop, Out: Sink>(
    alloc: Global,
    platform: &Platform<K>,
    answered: Answered,
    output: &mut Out,
) -> Status
    ensures told { TellsCounts answered platform.now (Out.written output.old) (Out.written output.new) result }
    ensures faults { Out.fault_count output.new ≡ write_faults_after (Out.fault_count output.old) result }
{
    let text = match text_of_counts(alloc, platform, answered) {
        Ok(text) => text,
        Err(_) => return Status::NoMemory,
    };
    if write_all(output, text.as_slice()) {
        Status::Done
    } else {
        Status::WriteFault
    }
}

// The text of the counts.
fn text_of_counts<K: Kinds + Drop>(
    alloc: Global,
    platform: &Platform<K>,
    answered: Answered,
) -> Result<Vec<u8>, OutOfMemory>
    ensures { IfOk result (λ text. text.items ≡ text_of_counts answered platform.now) }
{
    let counts = counts_of(alloc, platform, answered)?;
    write_counts(alloc, &counts)
}

// What is counted.
fn counts_of<K: Kinds + Drop>(
    alloc: Global,
    platform: &Platform<K>,
    answered: Answered,
) -> Result<LoadCounts, OutOfMemory>
    ensures { IfOk result (λ counts. counts ≡ counts_with answered platform.now) }
{
    let journal = platform.core().journal();
    let replay = replayed(alloc, journal.entries())?;
    Ok(LoadCounts {
        lines: answered.lines,
        accepted: answered.accepted,
        refused: answered.refused,
        records: journal.length(),
        turns: turns_in(journal.entries()),
        satisfied: replay.open.as_slice().len() as u64,
        active: active_among(replay.living.as_slice()),
    })
}
