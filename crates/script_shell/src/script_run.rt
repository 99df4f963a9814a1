//! The run of a script: a line, its text, and so on to the end.
ghost use Rattle.std.specs.Prelude.{◌≡◌, Ok};
ghost use Rattle.fault_count.specs.Steps.{Rose};
ghost use Rattle.script_shell.specs.FormRuns.{script_setting};
ghost use Rattle.script_shell.specs.Runs.{FaultsAt, HasRunOver};
ghost use Rattle.script_shell.specs.Statuses.{HasCause, read_faults_after, write_faults_after};

use crate::line_answer::answer_line;
use crate::line_ask::{AskStep, read_ask};
use crate::line_input::{LineStep, ReadAhead, next_line};
use crate::told_reply::tell_reply;
use crate::{Form, Platform, ScriptOptions, Status, Tells};
use fault_count::{Sink, Source};
use kind_trait::Kinds;
use std::alloc::Global;

/// Runs the lines of the input up to an end, and counts them: the number is that of the next line, at first 1.
pub(crate) fn run_lines<K: Kinds + Drop, In: Source, Out: Sink, T: Tells>(
    alloc: Global,
    options: ScriptOptions,
    platform: &mut Platform<K>,
    input: &mut In,
    output: &mut Out,
    told: &mut T,
    number: &mut u64,
) -> Status
    requires { number.old ≡ 1 }
    ensures run { HasRunOver (script_setting K.refuses K.next options) options (In.left input.old) platform.old platform.new (Out.written output.old) (Out.written output.new) result }
    ensures cause { HasCause result (Ok (Form.Script options)) (Rose (In.fault_count input.old) (In.fault_count input.new)) (Rose (Out.fault_count output.old) (Out.fault_count output.new)) }
    ensures fault { FaultsAt result (script_setting K.refuses K.next options) options (In.left input.old) (In.left input.new) platform.old platform.new (Out.written output.old) (Out.written output.new) }
    ensures read_faults { In.fault_count input.new ≡ read_faults_after (In.fault_count input.old) result }
    ensures write_faults { Out.fault_count output.new ≡ write_faults_after (Out.fault_count output.old) result }
{
    let mut ahead = ReadAhead::new(alloc);
    // Whether it is known that nothing is due: behind each line's settling, and not before the first.
    let mut rested = false;
    loop {
        let line = match next_line(alloc, &mut ahead, input) {
            LineStep::Line(line) => line,
            LineStep::TooLong => return Status::LineTooLong { line: *number },
            LineStep::End => return Status::Done,
            LineStep::Failed => return Status::ReadFault,
            LineStep::NoMemory => return Status::NoMemory,
        };
        let text = line.as_slice();
        let asked = match read_ask(alloc, text) {
            AskStep::Asked(asked) => asked,
            AskStep::Quit => return Status::Done,
            AskStep::NoMemory => return Status::NoMemory,
        };
        let reply = match answer_line(alloc, options, rested, platform, text, asked, output) {
            Ok(reply) => reply,
            Err(status) => return status,
        };
        if tell_reply(told, options.strict, *number, text, &reply) {
            return Status::Refused { line: *number };
        }
        *number = number.saturating_add(1);
        rested = !options.manual;
    }
}
