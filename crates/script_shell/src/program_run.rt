//! The run of the program over given words and ends.
ghost use Rattle.script_shell.specs.Programs.{AnswersWords, RunsNew, RunsProgram, WritesText};
ghost use Rattle.script_shell.specs.Statuses.{code_of, write_faults_after};
ghost use Rattle.std.specs.Prelude.{◌≡◌, ℕ, Err, IfOk, List, MatchResult, Ok, map, string_bytes};
ghost use Rattle.std.specs.Process.{exit_status};

use crate::asked_text::text_asked;
use crate::reply_output::write_all;
use crate::told_run::run_told;
use crate::{AskedText, Platform, Status, Tells, Texts};
use fault_count::{Sink, Source};
use kind_trait::Kinds;
use prop_map::OutOfMemory;
use scr_world::Limits;
use std::alloc::Global;
use std::process::ExitCode;

// The greatest limits of a platform.
const LIMITS: Limits = Limits {
    journal: 4_194_304,
    turns: 1_000_000,
};

/// Runs what the words ask for on a new platform with the greatest limits, 4,194,304 entries and 1,000,000 turns, and ends
/// with the number of the run's status. Where they ask for a text, that is written, and no run is begun. Where the words can't be
/// read it ends with the number of the status that tells why.
pub fn run_program<K: Kinds + Drop, In: Source, Out: Sink, T: Tells + Texts>(
    alloc: Global,
    kinds: K,
    words: &Result<Vec<String>, Status>,
    input: &mut In,
    output: &mut Out,
    told: &mut T,
) -> ExitCode
    ensures { MatchResult words.now
        (λ given. RunsProgram K.refuses K.next (Ok (map string_bytes given.items)) (record { bytes = In.left input.old; faults = In.fault_count input.old }) (record { bytes = In.left input.new; faults = In.fault_count input.new })
        (record { bytes = Out.written output.old; faults = Out.fault_count output.old }) (record { bytes = Out.written output.new; faults = Out.fault_count output.new }) (exit_status result))
        (λ why. RunsProgram K.refuses K.next (Err why) (record { bytes = In.left input.old; faults = In.fault_count input.old }) (record { bytes = In.left input.new; faults = In.fault_count input.new })
        (record { bytes = Out.written output.old; faults = Out.fault_count output.old }) (record { bytes = Out.written output.new; faults = Out.fault_count output.new }) (exit_status result)) }
{
    match words {
        Ok(words) => ended(run_words(alloc, kinds, words.as_slice(), input, output, told)),
        Err(status) => {
            told.ended(0, status);
            ended(*status)
        }
    }
}

// The end with the number of a status.
fn ended(status: Status) -> ExitCode
    ensures { exit_status result ≡ code_of status }
{
    ExitCode::from(status.code())
}

// Answers the words.
fn run_words<K: Kinds + Drop, In: Source, Out: Sink, T: Tells + Texts>(
    alloc: Global,
    kinds: K,
    words: &[String],
    input: &mut In,
    output: &mut Out,
    told: &mut T,
) -> Status
    ensures { AnswersWords K.refuses K.next (map string_bytes words.now) (record { bytes = In.left input.old; faults = In.fault_count input.old }) (record { bytes = In.left input.new; faults = In.fault_count input.new })
        (record { bytes = Out.written output.old; faults = Out.fault_count output.old }) (record { bytes = Out.written output.new; faults = Out.fault_count output.new }) result }
{
    match texts_of(alloc, words) {
        Ok(texts) => answer_words(alloc, kinds, texts.as_slice(), input, output, told),
        Err(_) => without_memory(told),
    }
}

// The same, where the words are texts.
fn answer_words<K: Kinds + Drop, In: Source, Out: Sink, T: Tells + Texts>(
    alloc: Global,
    kinds: K,
    words: &[&str],
    input: &mut In,
    output: &mut Out,
    told: &mut T,
) -> Status
    ensures { AnswersWords K.refuses K.next (map (λ word. word.now) words.now) (record { bytes = In.left input.old; faults = In.fault_count input.old }) (record { bytes = In.left input.new; faults = In.fault_count input.new })
        (record { bytes = Out.written output.old; faults = Out.fault_count output.old }) (record { bytes = Out.written output.new; faults = Out.fault_count output.new }) result }
{
    match text_asked(words) {
        Some(asked) => {
            let status = write_text(alloc, asked, output, &*told);
            told.ended(0, &status);
            status
        }
        None => run_texts(alloc, kinds, words, input, output, told),
    }
}

// Memory was wanting before anything was read or written.
fn without_memory<T: Tells>(told: &mut T) -> Status
    ensures { result ≡ Status.NoMemory }
{
    told.ended(0, &Status::NoMemory);
    Status::NoMemory
}

// Writes the text that the words ask for.
fn write_text<Out: Sink, T: Texts>(
    alloc: Global,
    asked: AskedText,
    output: &mut Out,
    texts: &T,
) -> Status
    ensures text { (text : List ℕ) × WritesText text (Out.written output.old) (Out.written output.new) result }
    ensures faults { Out.fault_count output.new ≡ write_faults_after (Out.fault_count output.old) result }
{
    let text = match texts.text(alloc, asked) {
        Ok(text) => text,
        Err(_) => return Status::NoMemory,
    };
    if write_all(output, text.as_str().as_bytes()) {
        Status::Done
    } else {
        Status::WriteFault
    }
}

// Runs what the words ask for on a new platform.
fn run_texts<K: Kinds + Drop, In: Source, Out: Sink, T: Tells>(
    alloc: Global,
    kinds: K,
    words: &[&str],
    input: &mut In,
    output: &mut Out,
    told: &mut T,
) -> Status
    ensures { RunsNew K.refuses K.next (map (λ word. word.now) words.now) (record { bytes = In.left input.old; faults = In.fault_count input.old }) (record { bytes = In.left input.new; faults = In.fault_count input.new })
        (record { bytes = Out.written output.old; faults = Out.fault_count output.old }) (record { bytes = Out.written output.new; faults = Out.fault_count output.new }) result }
{
    match Platform::new(alloc, kinds, LIMITS) {
        Ok(mut platform) => run_told(alloc, &mut platform, words, input, output, told),
        Err(_) => without_memory(told),
    }
}

// The words as texts.
fn texts_of<'w>(alloc: Global, words: &'w [String]) -> Result<Vec<&'w str>, OutOfMemory>
    ensures { IfOk result (λ texts. map (λ text. text.now) texts.items ≡ map string_bytes words.now) }
{
    let mut texts = Vec::new(alloc);
    for word in words {
        texts.push(word.as_str())?;
    }
    Ok(texts)
}
