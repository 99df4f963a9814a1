//! The run that the words ask for, of which someone is told.
ghost use Rattle.std.specs.Prelude.{◌≡◌, map};
ghost use Rattle.fault_count.specs.Steps.{Rose};
ghost use Rattle.scr_world.specs.Legal.{IsLegal};
ghost use Rattle.scr_world.specs.Steps.{history_of};
ghost use Rattle.script_shell.specs.FormRuns.{EndsForm, FaultsIn, RunsForm};
ghost use Rattle.script_shell.specs.Forms.{form_of};
ghost use Rattle.script_shell.specs.Statuses.{HasCause, read_faults_after, write_faults_after};

use crate::form_words::form_of;
use crate::load_run::run_load;
use crate::script_run::run_lines;
use crate::{Form, Platform, Status, Tells};
use fault_count::{Sink, Source};
use kind_trait::Kinds;
use std::alloc::Global;

/// The run of [`run_script`](crate::run_script), of which someone is told: of each reply of a script behind it, and of the
/// end. Whoever is told can't touch the platform, the source or the sink, so the run is the same.
pub fn run_told<K: Kinds + Drop, In: Source, Out: Sink, T: Tells>(
    alloc: Global,
    platform: &mut Platform<K>,
    words: &[&str],
    input: &mut In,
    output: &mut Out,
    told: &mut T,
) -> Status
    ensures run { RunsForm K.refuses K.next (form_of (map (λ word. word.now) words.now)) (In.left input.old) (In.left input.new) platform.old platform.new (Out.written output.old) (Out.written output.new) result }
    ensures cause { HasCause result (form_of (map (λ word. word.now) words.now))
        (Rose (In.fault_count input.old) (In.fault_count input.new)) (Rose (Out.fault_count output.old) (Out.fault_count output.new)) }
    ensures fault { FaultsIn K.refuses K.next (form_of (map (λ word. word.now) words.now)) (In.left input.old) (In.left input.new) platform.old platform.new (Out.written output.old) (Out.written output.new) result }
    ensures read_faults { In.fault_count input.new ≡ read_faults_after (In.fault_count input.old) result }
    ensures write_faults { Out.fault_count output.new ≡ write_faults_after (Out.fault_count output.old) result }
    ensures complete { EndsForm K.refuses K.next (form_of (map (λ word. word.now) words.now))
        (Rose (In.fault_count input.old) (In.fault_count input.new)) (Rose (Out.fault_count output.old) (Out.fault_count output.new)) (In.left input.old) platform.old result }
    ensures legal { IsLegal platform.new.limits.journal (history_of platform.new.journal) }
    ensures limits { platform.new.limits ≡ platform.old.limits }
{
    match form_of(words) {
        Ok(Form::Script(options)) => {
            let mut line = 1u64;
            let status = run_lines(alloc, options, platform, input, output, told, &mut line);
            platform.core();
            told.ended(line, &status);
            status
        }
        Ok(Form::Load(load)) => {
            let status = run_load(alloc, platform, load, output);
            told.ended(0, &status);
            status
        }
        Err(at) => {
            platform.core();
            let status = Status::Usage { at };
            told.ended(0, &status);
            status
        }
    }
}
