//! The run that the words ask for, of which nobody is told.
ghost use Rattle.std.specs.Prelude.{◌≡◌, map};
ghost use Rattle.fault_count.specs.Steps.{Rose};
ghost use Rattle.scr_world.specs.Legal.{IsLegal};
ghost use Rattle.scr_world.specs.Steps.{history_of};
ghost use Rattle.script_shell.specs.FormRuns.{EndsForm, FaultsIn, RunsForm};
ghost use Rattle.script_shell.specs.Forms.{form_of};
ghost use Rattle.script_shell.specs.Statuses.{HasCause, read_faults_after, write_faults_after};

use crate::tells::Nobody;
use crate::told_run::run_told;
use crate::{Platform, Status};
use fault_count::{Sink, Source};
use kind_trait::Kinds;
use std::alloc::Global;

/// Runs what the words ask for: a script or a load. Other words end the run with `Usage` before anything is read.
///
/// In `script` the lines of the input are run up to `quit`, to a line that is too long or to the end of the input, and the reply of
/// each is written whole before the next line is run. Without `--manual` the platform is settled behind each line, also one without
/// a reply, and then its reply is written: where no turn was under way at the start, the platform is quiet and right whenever a
/// reply is written. With `--manual` turns run where a line asks for it alone. A settling that begins on a calm platform, in which
/// no creation or activation fails, closes no component configuration and needs at most as many turns as the settle bound says.
/// With `--echo` a line stands before its reply, in one text with it, and is written where it has no reply too. With `--strict` the
/// first line that is refused ends the run with `Refused`, behind its whole reply. `load` is [`run_load`], and reads nothing.
///
/// A line ends the run with `JournalFull` where its command, its get, its turn or a turn of its settling finds no room in the journal,
/// with `Unsettled` where the settling ran as many turns as the limit says and one is still due, with `NoMemory`, and with
/// `WriteFault` where the sink fails before it has taken all of the line's text: it has taken a front of it. Nothing else of that
/// line's text is written, no further line is run, and the texts of the lines before it are written whole. Where neither end
/// fails, no line is refused in a strict run and none of these comes, the run ends with all replies written: `LineTooLong` where a
/// line before `quit` is too long, else `Done`.
///
/// The first failure of the source ends the run with `ReadFault`, the first of the sink with `WriteFault`, and no failure is
/// passed over: in any other case both counts of faults are as they were. Where the source fails each whole line that was read
/// has run, with its reply written.
///
/// So nothing is read while a reply is owed, and nothing behind `quit`. The clauses hold over a source that fails at whichever
/// of its calls: a read while a reply of a line that was read is owed, be it of one that changes nothing, would be one at which
/// `fault` doesn't hold where it fails; and at a read behind a whole line `quit` the script's lines would go on behind `quit`, which
/// `fault` says of no script, or the failure would be passed over, against `read_faults`. In the same way `write_faults` holds over a
/// sink that fails at whichever of its calls: each reply is written before the next line is read, and not together with a later one.
pub fn run_script<K: Kinds + Drop, In: Source, Out: Sink>(
    alloc: Global,
    platform: &mut Platform<K>,
    words: &[&str],
    input: &mut In,
    output: &mut Out,
) -> Status
    ensures run { RunsForm K.refuses K.next (form_of (map (λ word. word.now) words.now)) (In.left input.old) (In.left input.new) platform.old platform.new (Out.written output.old) (Out.written output.new) result }
    ensures cause { HasCause result (form_of (map (λ word. word.now) words.now))
        (Rose (In.fault_count input.old) (In.fault_count input.new)) (Rose (Out.fault_count output.old) (Out.fault_count output.new)) }
    ensures fault { FaultsIn K.refuses K.next (form_of (map (λ word. word.now) words.now)) (In.left input.old) (In.left input.new) platform.old platform.new (Out.written output.old) (Out.written output.new) result }
    ensures read_faults { In.fault_count input.new ≡ read_faults_after (In.fault_count input.old) result }
    ensures write_faults { Out.fault_count output.new ≡ write_faults_after (Out.fault_count output.old) result }
    ensures complete { EndsForm K.refuses K.next (form_of (map (λ word. word.now) words.now))
        (Rose (In.fault_count input.old) (In.fault_count input.new)) (Rose (Out.fault_count output.old) (Out.fault_count output.new)) (In.left input.old) platform.old result }
    ensures legal { IsLegal platform.new.limits.journal (history_of platform.new.journal) }
    ensures limits { platform.new.limits ≡ platform.old.limits }
{
    run_told(alloc, platform, words, input, output, &mut Nobody)
}
