//! A line of a load.
ghost use Rattle.script_shell.specs.LoadLines.{RunsLoadLine};
ghost use Rattle.script_shell.specs.LineTexts.{is_refusal};
ghost use Rattle.script_shell.specs.Loads.{load_setting};
ghost use Rattle.script_shell.specs.Rests.{HasNothingDue};
ghost use Rattle.shell_lang.specs.ShellLines.{shell_line};
ghost use Rattle.std.specs.Prelude.{◌≡◌, IfOk, option_map, true};

use crate::Status;
use crate::line_run::run_line;
use kind_trait::Kinds;
use platform_hall::Platform;
use prop_map::OutOfMemory;
use shell_lang::{LineFault, ShellLine, ShellReply, read_line};
use std::alloc::{AllocError, Global};

/// Runs a line as one of a script, and answers whether its reply is a refusal, where it has one. The caller says whether it
/// knows that nothing is due.
pub(crate) fn run_load_line<K: Kinds + Drop>(
    alloc: Global,
    rested: bool,
    platform: &mut Platform<K>,
    line: &[u8],
) -> Result<Option<bool>, Status>
    requires { rested ≡ true → HasNothingDue platform.old }
    ensures { RunsLoadLine (load_setting K.refuses K.next) line.now platform.old result platform.new }
{
    let asked = match asked_of(alloc, line) {
        Ok(asked) => asked,
        Err(_) => return Err(Status::NoMemory),
    };
    match run_line(alloc, false, rested, platform, asked) {
        Ok(told) => Ok(refused_in(&told)),
        Err(fault) => Err(Status::from(fault)),
    }
}

// What a line asks.
fn asked_of(alloc: Global, line: &[u8]) -> Result<Result<ShellLine, LineFault>, OutOfMemory>
    ensures { IfOk result (λ asked. shell_line line.now ≡ asked) }
{
    match read_line(alloc, line) {
        Ok(asked) => Ok(Ok(asked)),
        Err(fault) => match fault {
            LineFault::OutOfMemory => Err(AllocError),
            fault => Ok(Err(fault)),
        },
    }
}

// Whether the reply is a refusal, where there is one.
fn refused_in(told: &Option<ShellReply>) -> Option<bool>
    ensures { result ≡ option_map is_refusal told.now }
{
    match told {
        None => None,
        Some(reply) => Some(is_refusal(reply)),
    }
}

/// Whether a reply is a refusal.
pub(crate) fn is_refusal(reply: &ShellReply) -> bool
    ensures { result ≡ is_refusal reply.now }
{
    match reply {
        ShellReply::Refused(_) => true,
        ShellReply::Done => false,
        ShellReply::Help(_) => false,
        ShellReply::Bundle(_) => false,
        ShellReply::Service(_) => false,
        ShellReply::Uses(_) => false,
        ShellReply::Listener(_) => false,
        ShellReply::Bundles(_) => false,
        ShellReply::Services(_) => false,
        ShellReply::Components(_) => false,
        ShellReply::Report(_) => false,
        ShellReply::Held(_) => false,
        ShellReply::Found(_) => false,
        ShellReply::Events { .. } => false,
        ShellReply::BundleEvents { .. } => false,
        ShellReply::Trace(_) => false,
        ShellReply::Wiring(_) => false,
        ShellReply::BundleWiring(_) => false,
        ShellReply::Routes(_) => false,
        ShellReply::Listed(_) => false,
        ShellReply::Graph(_) => false,
        ShellReply::Details(_) => false,
        ShellReply::ServiceFacts(_) => false,
        ShellReply::Descriptions(_) => false,
        ShellReply::Configurations(_) => false,
        ShellReply::Configuration(_) => false,
        ShellReply::Listeners(_) => false,
        ShellReply::Journal { .. } => false,
        ShellReply::Turns(_) => false,
        ShellReply::Begun(_) => false,
        ShellReply::Idle => false,
        ShellReply::Finished(_) => false,
        ShellReply::Text(_) => false,
        ShellReply::Http { .. } => false,
    }
}
