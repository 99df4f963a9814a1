//! A line, run: what it asks is carried out, and then the platform comes to rest.
ghost use Rattle.script_shell.specs.Carries.{RestsOr, RunsAsked};
ghost use Rattle.script_shell.specs.Rests.{HasNothingDue};
ghost use Rattle.std.specs.Prelude.{◌≡◌, ◌&&◌, ◌==◌, length, true};

use crate::asked::carry_out;
use kind_trait::Kinds;
use platform_hall::{Platform, note_rest, note_settle_bound, note_turns_end};
use shell_lang::{LineFault, ShellLine, ShellReply};
use std::alloc::Global;
use turn_runner::SettleFault;

// Runs a line, and answers what is told of it once the platform is at rest. The caller says whether it knows that
// nothing is due before it: then a line that appends nothing needs no settling.
pub(crate) fn run_line<K: Kinds + Drop>(
    alloc: Global,
    manual: bool,
    rested: bool,
    platform: &mut Platform<K>,
    asked: Result<ShellLine, LineFault>,
) -> Result<Option<ShellReply>, SettleFault>
    requires { rested ≡ true → HasNothingDue platform.old }
    ensures { RunsAsked (record { is_manual = manual; refuses = K.refuses; next = K.next }) asked platform.old result platform.new }
{
    note_turns_end();
    platform.core();
    let before = entries(platform);
    let told = carry_out(alloc, manual, platform, asked)?;
    let still = rested_still(platform, rested, before);
    match rest(alloc, manual, still, platform) {
        Ok(()) => Ok(told),
        Err(fault) => Err(fault),
    }
}

// Whether nothing is due still: nothing was, and the journal has as many entries as then.
fn rested_still<K: Kinds + Drop>(platform: &Platform<K>, rested: bool, before: u64) -> bool
    ensures { result ≡ (rested && (length platform.now.journal == before)) }
{
    rested && entries(platform) == before
}

// How many entries the journal has.
fn entries<K: Kinds + Drop>(platform: &Platform<K>) -> u64
    ensures { result ≡ length platform.now.journal }
{
    platform.core().journal().length()
}

// Runs the turns that are due, where turns don't run by lines alone. Where it is known that nothing is due it asks
// nobody.
fn rest<K: Kinds + Drop>(
    alloc: Global,
    manual: bool,
    rested: bool,
    platform: &mut Platform<K>,
) -> Result<(), SettleFault>
    requires { rested ≡ true → HasNothingDue platform.old }
    ensures { RestsOr (record { is_manual = manual; refuses = K.refuses; next = K.next }) platform.old result platform.new }
{
    if manual {
        return Ok(());
    }
    note_rest();
    note_settle_bound();
    platform.core();
    if rested {
        return Ok(());
    }
    match platform.settle(alloc) {
        Ok(_) => Ok(()),
        Err(fault) => Err(fault),
    }
}
