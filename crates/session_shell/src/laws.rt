//! Laws of sessions.
ghost use Rattle.hall_goings.specs.Went.{Went};
ghost use Rattle.platform_sessions.specs.Halls.{Own, View};
ghost use Rattle.session_shell.specs.Fronts.{Rising};
ghost use Rattle.session_shell.specs.Items.{ServesLine, Setting, noted};
ghost use Rattle.session_shell.specs.Sessions.{ServedLines};
ghost use Rattle.session_shell.specs.declared.item.SessionItem.{SessionItem};
ghost use Rattle.shell_lang.specs.ShellLines.{Asked};
ghost use Rattle.std.specs.Prelude.{ℕ, List, Option, length};

/// For contracts alone: over a line that a session serves, and over lines, its pass goes on in the one history, and
/// the fronts of their items begin at what the pass had seen before, never fall, and end at what it has seen afterwards.
pub fn note_served_lines()
    ensures line { (s : Setting) → (asked : Asked) → (before after : View) → (told : Option SessionItem) → ServesLine s asked before after told
        → ((own : Own) × Went before after own) × Rising (length before.seen) (noted told) (length after.seen) }
    ensures went { (s : Setting) → (lines : List (List ℕ)) → (before after : View) → (items : List SessionItem) → ServedLines s lines before after items → (own : Own) × Went before after own }
    ensures fronts { (s : Setting) → (lines : List (List ℕ)) → (before after : View) → (items : List SessionItem) → ServedLines s lines before after items
        → Rising (length before.seen) items (length after.seen) }
{}
