//! A line, answered: it is served, noted, and its reply is written.
ghost use Rattle.platform_sessions.specs.Halls.{IsOf, KeepsPass};
ghost use Rattle.session_shell.specs.Answers.{AnswersLine, TellsItem, faults_after_answer};
ghost use Rattle.session_shell.specs.Sessions.{item_text};
ghost use Rattle.shell_lang.specs.ShellLines.{is_quit};
ghost use Rattle.std.specs.Prelude.{◌≡◌, IfOk, false};

use crate::line_serve::serve_line;
use crate::{SessionEnd, SessionItem, SessionNotes};
use fault_count::Sink;
use kind_trait::Kinds;
use platform_sessions::{Hall, HallPass};
use prop_map::OutOfMemory;
use script_shell::write_all;
use shell_lang::{LineFault, ShellLine, write_reply};
use std::alloc::Global;
use std::sync::Wait;

// Serves a line, notes what it comes to, and writes its reply whole; or else how the session ends.
pub(crate) fn answer_line<R: Wait, K: Kinds + Drop, Out: Sink>(
    rt: &R,
    alloc: Global,
    hall: &Hall<K>,
    pass: &mut HallPass,
    asked: Result<ShellLine, LineFault>,
    notes: &mut SessionNotes,
    output: &mut Out,
) -> Result<(), SessionEnd>
    requires of { IsOf hall.now pass.old }
    requires other { is_quit asked ≡ false }
    ensures of { IsOf hall.now pass.new }
    ensures closed { pass.new.closed ≡ pass.old.closed }
    ensures keeps { KeepsPass pass.old.front pass.new.front }
    ensures answered { AnswersLine (record { limits = hall.now.limits; refuses = K.refuses }) asked pass.old.front pass.new.front notes.old.items notes.new.items (Out.written output.old) (Out.written output.new) result }
    ensures faults { Out.fault_count output.new ≡ faults_after_answer (Out.fault_count output.old) result }
{
    match serve_line(rt, alloc, hall, pass, asked) {
        Ok(Some(item)) => tell_item(alloc, item, notes, output),
        Ok(None) => Ok(()),
        Err(stop) => Err(SessionEnd::from(stop)),
    }
}

// Notes an item and writes its reply whole; or else how the session ends.
fn tell_item<Out: Sink>(
    alloc: Global,
    item: SessionItem,
    notes: &mut SessionNotes,
    output: &mut Out,
) -> Result<(), SessionEnd>
    ensures told { TellsItem item notes.old.items notes.new.items (Out.written output.old) (Out.written output.new) result }
    ensures faults { Out.fault_count output.new ≡ faults_after_answer (Out.fault_count output.old) result }
{
    match text_of(alloc, &item) {
        Ok(text) => note_item(item, text.as_slice(), notes, output),
        Err(_) => Err(SessionEnd::NoMemory),
    }
}

// The same, with its text.
fn note_item<Out: Sink>(
    item: SessionItem,
    text: &[u8],
    notes: &mut SessionNotes,
    output: &mut Out,
) -> Result<(), SessionEnd>
    requires text { text.now ≡ item_text item }
    ensures told { TellsItem item notes.old.items notes.new.items (Out.written output.old) (Out.written output.new) result }
    ensures faults { Out.fault_count output.new ≡ faults_after_answer (Out.fault_count output.old) result }
{
    if notes.items.push(item).is_err() {
        return Err(SessionEnd::NoMemory);
    }
    if write_all(output, text) {
        Ok(())
    } else {
        Err(SessionEnd::WriteFault)
    }
}

// The text of what is noted.
fn text_of(alloc: Global, item: &SessionItem) -> Result<Vec<u8>, OutOfMemory>
    ensures { IfOk result (λ text. text.items ≡ item_text item.now) }
{
    match item {
        SessionItem::Line { reply, .. } => write_reply(alloc, reply),
    }
}
