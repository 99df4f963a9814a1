//! Texts of lines, written whole.
ghost use Rattle.std.specs.Prelude.{◌≡◌, ◌<◌, ◌≤◌, ◌++◌, ℕ, IfErr, IfOk, is_some, length, take, true, if◌then◌else◌};
ghost use Rattle.std.specs.Bool.{OnTrue, OnFalse};
ghost use Rattle.std.specs.Io.KnownBytes.{Appends};
ghost use Rattle.fault_count.specs.Steps.{next_count};
ghost use Rattle.script_shell.specs.LineTexts.{answer_text, echo_text, has_text, told_text};

use fault_count::{Sink, WriteStep};
use prop_map::OutOfMemory;
use shell_lang::{ShellReply, write_reply};
use std::alloc::Global;

/// Writes these bytes. At false the sink has failed, and has taken the front of them.
pub fn write_all<Out: Sink>(output: &mut Out, bytes: &[u8]) -> bool
    ensures whole { OnTrue result (Appends (Out.written output.old) (Out.written output.new) bytes.now) }
    ensures front { OnFalse result ((count : ℕ) × (count < length bytes.now) × Appends (Out.written output.old) (Out.written output.new) (take count bytes.now)) }
    ensures faults { Out.fault_count output.new ≡ (if result then Out.fault_count output.old else next_count (Out.fault_count output.old)) }
{
    let mut at = 0usize;
    while at < bytes.len() {
        let (_, rest) = bytes.split_at(at);
        match output.write(rest) {
            WriteStep::Took(count) => at += count,
            WriteStep::Failed => return false,
        }
    }
    true
}

/// The text that is written of a line: its reply's, where it has one, and the line itself before it where that is asked for.
///
/// # Errors
/// Only want of memory, and only where there is a text.
pub fn answer_text(
    alloc: Global,
    echo: bool,
    line: &[u8],
    told: &Option<ShellReply>,
) -> Result<Vec<u8>, OutOfMemory>
    ensures text { IfOk result (λ text. text.items ≡ answer_text echo (record { line = line.now; told = told.now })) }
    ensures some { IfErr result (λ _. has_text echo (record { line = line.now; told = told.now }) ≡ true) }
{
    if echo {
        echoed(alloc, line, told)
    } else {
        told_text(alloc, told)
    }
}

// The line and its reply.
fn echoed(alloc: Global, line: &[u8], told: &Option<ShellReply>) -> Result<Vec<u8>, OutOfMemory>
    ensures { IfOk result (λ text. text.items ≡ echo_text line.now ++ told_text told.now) }
{
    let reply = told_text(alloc, told)?;
    let mut text = Vec::new(alloc);
    text.extend_from_slice(b"> ")?;
    text.extend_from_slice(line)?;
    text.push(b'\n')?;
    text.extend_from_slice(reply.as_slice())?;
    Ok(text)
}

// The text of what is told, nothing where nothing is. Memory is wanting only where something is told.
fn told_text(alloc: Global, told: &Option<ShellReply>) -> Result<Vec<u8>, OutOfMemory>
    ensures text { IfOk result (λ text. text.items ≡ told_text told.now) }
    ensures some { IfErr result (λ _. is_some told.now ≡ true) }
{
    match told {
        None => Ok(Vec::new(alloc)),
        Some(reply) => write_reply(alloc, reply),
    }
}
