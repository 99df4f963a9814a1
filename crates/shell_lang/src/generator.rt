//! The lines of `load`, one after the other.
ghost use Rattle.std.specs.Prelude.{◌≡◌, ◌+◌, ◌*◌, ◌<◌, ◌≤◌, IfOk, OnErr, length};
ghost use Rattle.shell_lang.specs.Loads.{GivesFirst, load_lines};

use crate::load_text::{after_command, after_install, command_at, install_at, start_line};
use prop_map::{OutOfMemory, Str};
use std::alloc::Global;
use std::marker::Model;

/// The lines of `load SEED BUNDLES COMMANDS`, of which one is made at a time. Contracts see those that are left.
#[derive(Drop)]
pub struct Generator {
    // The number that was drawn last.
    number: u64,
    // The first bundle that isn't started, whether it is installed, and how many there are from it on.
    bundle: u64,
    is_installed: bool,
    more: u64,
    // How many bundles there are in all.
    bundles: u64,
    // How many commands are left.
    commands: u64,
}

impl Model for Generator {
    ghost use Rattle.std.specs.Prelude.{◌≡◌, ◌+◌, ◌<◌, ◌≤◌, List, true, ℕ};
    ghost use Rattle.shell_lang.specs.Loads.{lines_left};

    ghost Value = { List (List ℕ) };

    ghost view = { λ g. lines_left g.number g.bundle g.more g.is_installed g.bundles g.commands };

    ghost invariant = { λ g. (g.number < 2147483648) × (0 < g.bundle) × (0 < g.bundles) × (g.bundle + g.more ≤ 101) × (g.is_installed ≡ true → 0 < g.more) };
}

impl Generator {
    /// The lines of these numbers. It takes no memory.
    pub fn new(seed: u64, bundles: u64, commands: u64) -> Generator
        requires some { 0 < bundles }
        requires few { bundles ≤ 100 }
        ensures lines { result ≡ load_lines seed bundles commands }
        ensures count { length result ≡ 2 * bundles + commands }
    {
        Generator {
            number: seed % 2_147_483_648,
            bundle: 1,
            is_installed: false,
            more: bundles,
            bundles,
            commands,
        }
    }

    /// The next line, `None` exactly where none is left.
    ///
    /// # Errors
    /// Only want of memory, and then it is as it was.
    #[tactic(auto, using(crate::proofs::LoadLemmas::left_install, crate::proofs::LoadLemmas::left_command, crate::proofs::LoadLemmas::left_none))]
    pub fn next_line(&mut self, alloc: Global) -> Result<Option<Str>, OutOfMemory>
        ensures line { IfOk result (λ line. GivesFirst self.old self.new line) }
        ensures err { OnErr result (self.new ≡ self.old) }
    {
        if self.is_installed {
            let line = start_line(alloc, self.bundle)?;
            self.is_installed = false;
            self.bundle += 1;
            self.more -= 1;
            return Ok(Some(line));
        }
        if self.more > 0 {
            let line = install_at(alloc, self.number, self.bundle)?;
            self.number = after_install(self.number, self.bundle);
            self.is_installed = true;
            return Ok(Some(line));
        }
        if self.commands > 0 {
            let line = command_at(alloc, self.number, self.bundles)?;
            self.number = after_command(self.number);
            self.commands -= 1;
            return Ok(Some(line));
        }
        Ok(None)
    }
}
