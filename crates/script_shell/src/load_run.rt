//! The run of a load: its lines one after the other, and then the counts.
ghost use Rattle.fault_count.specs.Steps.{Rose};
ghost use Rattle.script_shell.specs.Forms.{IsLoad};
ghost use Rattle.script_shell.specs.LoadLines.{RunsLines};
ghost use Rattle.script_shell.specs.Loads.{EndsLoad, RunsLoad, lines_of_load, load_setting};
ghost use Rattle.script_shell.specs.Statuses.{HasCause, write_faults_after};
ghost use Rattle.scr_world.specs.Legal.{IsLegal};
ghost use Rattle.scr_world.specs.Steps.{history_of};
ghost use Rattle.std.specs.Prelude.{◌≡◌, Ok};

use crate::load_answers::{Answered, with_answer};
use crate::load_counts::tell_counts;
use crate::load_line::run_load_line;
use crate::{Form, LoadNumbers, Platform, Status};
use fault_count::Sink;
use kind_trait::Kinds;
use shell_lang::Generator;
use std::alloc::Global;

/// Runs the lines of a load as a script runs its lines, one of which is made at a time, and writes four lines behind the
/// last one: how many lines ran and how their replies divide, how many entries the journal has, how many turns began in it, and
/// how many component configurations are open and how many instances active.
///
/// Of the replies nothing is written. A line ends the run with `JournalFull`, `Unsettled` or `NoMemory` where a line of a
/// script does so, and then nothing is written; at `WriteFault` the sink has taken a front of the four lines. Where the sink doesn't
/// fail and none of these comes, the run ends with `Done`.
pub fn run_load<K: Kinds + Drop, Out: Sink>(
    alloc: Global,
    platform: &mut Platform<K>,
    load: LoadNumbers,
    output: &mut Out,
) -> Status
    requires { IsLoad load }
    ensures run { RunsLoad K.refuses K.next load platform.old platform.new (Out.written output.old) (Out.written output.new) result }
    ensures cause { HasCause result (Ok (Form.Load load)) ⊥ (Rose (Out.fault_count output.old) (Out.fault_count output.new)) }
    ensures write_faults { Out.fault_count output.new ≡ write_faults_after (Out.fault_count output.old) result }
    ensures complete { ¬ Rose (Out.fault_count output.old) (Out.fault_count output.new) → EndsLoad K.refuses K.next load platform.old result }
    ensures legal { IsLegal platform.new.limits.journal (history_of platform.new.journal) }
    ensures limits { platform.new.limits ≡ platform.old.limits }
{
    match run_lines_of(alloc, platform, load) {
        Ok(answered) => {
            platform.core();
            tell_counts(alloc, platform, answered, output)
        }
        Err(status) => {
            platform.core();
            status
        }
    }
}

// Runs all lines of a load.
fn run_lines_of<K: Kinds + Drop>(
    alloc: Global,
    platform: &mut Platform<K>,
    load: LoadNumbers,
) -> Result<Answered, Status>
    requires { IsLoad load }
    ensures { RunsLines (load_setting K.refuses K.next) (lines_of_load load) platform.old result platform.new }
{
    let mut lines = Generator::new(load.seed, load.bundles, load.commands);
    let mut answered = Answered {
        lines: 0,
        accepted: 0,
        refused: 0,
    };
    // Whether it is known that nothing is due: behind each line's settling, and not before the first.
    let mut rested = false;
    loop {
        let line = match lines.next_line(alloc) {
            Ok(Some(line)) => line,
            Ok(None) => return Ok(answered),
            Err(_) => return Err(Status::NoMemory),
        };
        match run_load_line(alloc, rested, platform, line.as_str().as_bytes()) {
            Ok(refused) => answered = with_answer(answered, refused),
            Err(status) => return Err(status),
        }
        rested = true;
    }
}
