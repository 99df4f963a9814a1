//! What the lines of a run leave so.
ghost use Rattle.platform_hall.specs.Platforms.{world};
ghost use Rattle.script_shell.specs.Asks.{Asks, Setting};
ghost use Rattle.script_shell.specs.LineTexts.{Answer};
ghost use Rattle.script_shell.specs.Runs.{Ran};
ghost use Rattle.platform_hall.specs.Cores.{CoreView};
ghost use Rattle.scr_promises.specs.Names.{HaveOwnNames};
ghost use Rattle.scr_world.specs.declared.command.Command.{Command};
ghost use Rattle.scr_world.specs.declared.command.Limits.{Limits};
ghost use Rattle.shell_lang.specs.ShellLines.{Asked, shell_line};
ghost use Rattle.shell_lang.specs.declared.shell_reply.Refusal.TheVariants.{NotBuilt};
ghost use Rattle.shell_lang.specs.declared.shell_reply.ShellReply.TheVariants.{Refused};
ghost use Rattle.shell_lang.specs.declared.shell_reply.ShellReply.{ShellReply};
ghost use Rattle.std.specs.Prelude.{◌≢◌, ℕ, [], List, Option, Some};

/// For contracts alone: on a new platform the references of each installed description differ in name, and where they do so
/// before a line that is read, they do behind what it asks, and so behind lines that ran. So each settling of a run on a new
/// platform keeps to its bound.
pub fn note_own_names()
    ensures new { (limits : Limits) → HaveOwnNames (world (record { limits = limits; journal = [] })) }
    ensures asks { (s : Setting) → (line : List ℕ) → (before after : CoreView) → (told : Option ShellReply) → Asks s (shell_line line) before told after → HaveOwnNames (world before) → HaveOwnNames (world after) }
    ensures ran { (s : Setting) → (first before after : CoreView) → (lines : List (List ℕ)) → (commands : List Command) → (answers : List Answer) → Ran s first lines before after commands answers → HaveOwnNames (world before) → HaveOwnNames (world after) }
{}

/// For contracts alone: whatever a line asks, it isn't answered that its form isn't built.
pub fn note_all_built()
    ensures { (s : Setting) → (asked : Asked) → (before after : CoreView) → (told : Option ShellReply) → Asks s asked before told after → told ≢ Some (Refused NotBuilt) }
{}
