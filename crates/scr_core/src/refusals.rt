//! What a core refuses, told without asking it for the change.
ghost use Rattle.scr_state.specs.Keeps.{Keeps};
ghost use Rattle.scr_world.specs.Calls.{Commands, Gets, world_at};
ghost use Rattle.scr_world.specs.Replies.{reply};
ghost use Rattle.scr_world.specs.declared.reply.CoreFault.TheVariants.{OutOfMemory};
ghost use Rattle.std.specs.Option.{unwrap_or};
ghost use Rattle.std.specs.Prelude.{◌≢◌, Err, IfNone, IsOk, Some};

use crate::Core;
use crate::generic::let_go;
use crate::uses::refusal_of_use;
use journal_core::Journal;
use scr_commands::judge;
use scr_state::State;
use scr_world::{Command, CoreFault, Step};
use std::alloc::Global;

// Why a command is refused, which is judged and let go.
fn refusal_of_command(
    alloc: Global,
    journal: &Journal<Step>,
    state: &State,
    command: Command,
) -> Option<CoreFault>
    requires keeps { Keeps journal.now state.now }
    ensures answer { Commands journal.now.limit journal.now.entries command (Err (unwrap_or result OutOfMemory)) journal.now.entries }
    ensures free { IfNone result (IsOk (reply journal.now.limit (world_at journal.now.entries) command)) }
{
    let step = Step::Command(command);
    match judge(alloc, journal, state, &step) {
        Err(fault) => {
            let_go(step);
            Some(fault)
        }
        Ok(judgement) => {
            let_go(step);
            let_go(judgement);
            None
        }
    }
}

impl Core {
    /// An error that [`Core::command`] may answer for this command; `None` only where nothing refuses it, so that want of memory is
    /// all that may be told of it. The command is let go, and nothing changes. For a caller to whom memory is wanting before it
    /// can ask the core, and who owes the refusal all the same.
    ///
    /// Of a refusal that takes memory to find `OutOfMemory` may be told, as by the command itself.
    pub fn refusal_of(&self, alloc: Global, command: Command) -> Option<CoreFault>
        ensures answer { Commands self.now.limits.journal self.now.journal command (Err (unwrap_or result OutOfMemory)) self.now.journal }
        ensures free { IfNone result (IsOk (reply self.now.limits.journal (world_at self.now.journal) command)) }
    {
        refusal_of_command(alloc, &self.journal, &self.state, command)
    }

    /// The error that [`Core::get_use`] answers whether or not there is memory; `None` exactly where only want of memory may be
    /// told of the get. It takes no memory, and nothing changes.
    pub fn refusal_of_get(&self, bundle: u64, service: u64) -> Option<CoreFault>
        ensures answer { Gets self.now.limits.journal self.now.journal bundle service (Err (unwrap_or result OutOfMemory)) self.now.journal }
        ensures told { result ≢ Some OutOfMemory }
    {
        refusal_of_use(&self.journal, &self.state, bundle, service)
    }
}
