//! What a line asks that only looks, answered in one turn at the lock.
ghost use Rattle.script_shell.specs.Looks.{is_look};
ghost use Rattle.session_shell.specs.Answers.{IsLooked, LooksAt};
ghost use Rattle.std.specs.Prelude.{◌≡◌, true};

use platform_sessions::{Core, Look};
use script_shell::look_at;
use shell_lang::{ShellLine, ShellReply};
use std::alloc::Global;
use turn_runner::SettleFault;

// A line that only looks, and what it was told, once it was told anything.
#[derive(Drop)]
pub(crate) struct LineLook {
    alloc: Global,
    line: ShellLine,
    told: Option<Result<ShellReply, SettleFault>>,
    ghost looks: { is_look line ≡ true },
}

impl LineLook {
    // Nothing was told yet.
    pub(crate) fn new(alloc: Global, line: ShellLine) -> LineLook
        requires { is_look line ≡ true }
        ensures { result.line ≡ line }
    {
        LineLook {
            alloc,
            line,
            told: None,
        }
    }

    // What was told, where it was and there was memory for it.
    pub(crate) fn reply(self) -> Option<ShellReply>
        ensures { LooksAt self.told result }
    {
        let LineLook { told, .. } = self;
        match told {
            Some(Ok(reply)) => Some(reply),
            Some(Err(_)) | None => None,
        }
    }
}

impl Look for LineLook {
    ghost looks = { λ old journal limits new. IsLooked old.line (record { limits = limits; journal = journal }) new.told };

    fn look(&mut self, core: &Core) {
        self.told = Some(look_at(self.alloc, core, &self.line));
    }
}
