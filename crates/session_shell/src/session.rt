//! A session: a line, its reply, and so on to the end.
ghost use Rattle.platform_sessions.specs.Halls.{IsOf, KeepsPass};
ghost use Rattle.session_shell.specs.Sessions.{FaultsAt, HasServedOver, read_faults_after, write_faults_after};
ghost use Rattle.std.specs.Prelude.{◌≡◌};

use crate::line_answer::answer_line;
use crate::{SessionEnd, SessionNotes};
use fault_count::{Sink, Source};
use kind_trait::Kinds;
use platform_sessions::{Hall, HallPass};
use script_shell::{AskStep, LineStep, ReadAhead, next_line, read_ask};
use std::alloc::Global;
use std::sync::Wait;

/// What a session speaks.
#[derive(Clone, Copy, Debug, PartialEq, Eq)]
pub enum SessionKind {
    /// Lines of the shell.
    Shell,
}

/// Serves a session of a hall from a source and a sink, and answers how it ends. Each line is asked of the hall as it is
/// read, noted, and its reply written whole before the next line is served. Nothing is settled for a line; `settle` runs
/// as many turns as the limits say at most, `begin` and `finish` are refused `NotManual`, and `call` and `http`
/// `NotBuilt`. The pass keeps its number and its spare. It waits for its turns at the lock.
///
/// A session of lines ends at `quit`, at the end of the input, at a line that is too long, where the source or the sink
/// fails, where the journal has no room for a line's command or for the next turn of `settle`, and for want of memory.
/// The line in which it ends has no reply, but a front of one where the sink failed.
pub fn serve_session<R: Wait, K: Kinds + Drop, In: Source, Out: Sink>(
    rt: &R,
    alloc: Global,
    hall: &Hall<K>,
    pass: &mut HallPass,
    kind: SessionKind,
    notes: &mut SessionNotes,
    input: &mut In,
    output: &mut Out,
) -> SessionEnd
    requires of { IsOf hall.now pass.old }
    ensures of { IsOf hall.now pass.new }
    ensures closed { pass.new.closed ≡ pass.old.closed }
    ensures keeps { KeepsPass pass.old.front pass.new.front }
    ensures served { HasServedOver (record { limits = hall.now.limits; refuses = K.refuses }) (In.left input.old) pass.old.front pass.new.front notes.old.items notes.new.items (Out.written output.old) (Out.written output.new) result }
    ensures fault { FaultsAt result (record { limits = hall.now.limits; refuses = K.refuses }) (In.left input.old) (In.left input.new) pass.old.front pass.new.front notes.old.items notes.new.items (Out.written output.old) (Out.written output.new) }
    ensures read_faults { In.fault_count input.new ≡ read_faults_after (In.fault_count input.old) result }
    ensures write_faults { Out.fault_count output.new ≡ write_faults_after (Out.fault_count output.old) result }
{
    match kind {
        SessionKind::Shell => serve_lines(rt, alloc, hall, pass, notes, input, output),
    }
}

// Serves the lines of the input up to an end.
fn serve_lines<R: Wait, K: Kinds + Drop, In: Source, Out: Sink>(
    rt: &R,
    alloc: Global,
    hall: &Hall<K>,
    pass: &mut HallPass,
    notes: &mut SessionNotes,
    input: &mut In,
    output: &mut Out,
) -> SessionEnd
    requires of { IsOf hall.now pass.old }
    ensures of { IsOf hall.now pass.new }
    ensures closed { pass.new.closed ≡ pass.old.closed }
    ensures keeps { KeepsPass pass.old.front pass.new.front }
    ensures served { HasServedOver (record { limits = hall.now.limits; refuses = K.refuses }) (In.left input.old) pass.old.front pass.new.front notes.old.items notes.new.items (Out.written output.old) (Out.written output.new) result }
    ensures fault { FaultsAt result (record { limits = hall.now.limits; refuses = K.refuses }) (In.left input.old) (In.left input.new) pass.old.front pass.new.front notes.old.items notes.new.items (Out.written output.old) (Out.written output.new) }
    ensures read_faults { In.fault_count input.new ≡ read_faults_after (In.fault_count input.old) result }
    ensures write_faults { Out.fault_count output.new ≡ write_faults_after (Out.fault_count output.old) result }
{
    let mut ahead = ReadAhead::new(alloc);
    let mut number = 1u64;
    loop {
        let line = match next_line(alloc, &mut ahead, input) {
            LineStep::Line(line) => line,
            LineStep::TooLong => return SessionEnd::LineTooLong { line: number },
            LineStep::End => return SessionEnd::EndOfInput,
            LineStep::Failed => return SessionEnd::ReadFault,
            LineStep::NoMemory => return SessionEnd::NoMemory,
        };
        let text = line.as_slice();
        let asked = match read_ask(alloc, text) {
            AskStep::Asked(asked) => asked,
            AskStep::Quit => return SessionEnd::Quit,
            AskStep::NoMemory => return SessionEnd::NoMemory,
        };
        match answer_line(rt, alloc, hall, pass, asked, notes, output) {
            Ok(()) => number = number.saturating_add(1),
            Err(end) => return end,
        }
    }
}
