//! A line, answered: it is run, and its text is written.
ghost use Rattle.std.specs.Prelude.{◌≡◌, true};
ghost use Rattle.script_shell.specs.Answers.{AnswersLine, faults_after_answer};
ghost use Rattle.script_shell.specs.FormRuns.{script_setting};
ghost use Rattle.script_shell.specs.Rests.{HasNothingDue};

use crate::line_run::run_line;
use crate::reply_output::{answer_text, write_all};
use crate::{ScriptOptions, Status};
use fault_count::Sink;
use kind_trait::Kinds;
use platform_hall::Platform;
use shell_lang::{LineFault, ShellLine, ShellReply};
use std::alloc::Global;

// Runs a line, and writes its text whole: this is its reply; or else how the run ends. The caller says whether it knows that
// nothing is due.
pub(crate) fn answer_line<K: Kinds + Drop, Out: Sink>(
    alloc: Global,
    options: ScriptOptions,
    rested: bool,
    platform: &mut Platform<K>,
    line: &[u8],
    asked: Result<ShellLine, LineFault>,
    output: &mut Out,
) -> Result<Option<ShellReply>, Status>
    requires { rested ≡ true → HasNothingDue platform.old }
    ensures answered { AnswersLine (script_setting K.refuses K.next options) options.echo line.now asked result platform.old platform.new (Out.written output.old) (Out.written output.new) }
    ensures faults { Out.fault_count output.new ≡ faults_after_answer (Out.fault_count output.old) result }
{
    let told = match run_line(alloc, options.manual, rested, platform, asked) {
        Ok(told) => told,
        Err(fault) => return Err(Status::from(fault)),
    };
    let text = match answer_text(alloc, options.echo, line, &told) {
        Ok(text) => text,
        Err(_) => return Err(Status::NoMemory),
    };
    if write_all(output, text.as_slice()) {
        Ok(told)
    } else {
        Err(Status::WriteFault)
    }
}
