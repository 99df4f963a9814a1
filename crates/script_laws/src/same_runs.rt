//! Runs that leave the same.
ghost use Rattle.call_moves.specs.Evaluations.{Meaning};
ghost use Rattle.kind_trait.specs.Meanings.{Told};
ghost use Rattle.platform_hall.specs.Cores.{CoreView};
ghost use Rattle.prop_map.specs.declared.properties.Property.{Property};
ghost use Rattle.scr_world.specs.Legal.{IsLegal};
ghost use Rattle.scr_world.specs.Steps.{history_of};
ghost use Rattle.scr_world.specs.declared.command.Limits.{Limits};
ghost use Rattle.script_laws.specs.SameRuns.{Leaves, Left, LeftTheSame, is_undisturbed};
ghost use Rattle.std.specs.Prelude.{◌≡◌, ℕ, Bool, List, [], true};

/// For contracts alone: two runs of the same words over the same bytes, each as
/// [`run_script`](script_shell::run_script) or [`run_told`](script_shell::run_told) says it, leave the same journal, write
/// the same text and end with the same status, where neither ended with status 2, 3 or 4: no end failed, and no memory
/// was wanting. They begin on platforms with equal limits and equal legal journals, as new platforms are, whose
/// component code refuses alike, and answers calls and requests alike.
pub fn note_script_journal()
    ensures legal { (refuses : List ℕ → List Property → Told → Bool) (next : Meaning) (words : List (List ℕ)) (bytes : List ℕ)
        → (before : CoreView) (one other : Left) → IsLegal before.limits.journal (history_of before.journal)
        → Leaves refuses next words bytes before one → Leaves refuses next words bytes before other
        → is_undisturbed one.status ≡ true → is_undisturbed other.status ≡ true → LeftTheSame one other }
    ensures new { (refuses : List ℕ → List Property → Told → Bool) (next : Meaning) (words : List (List ℕ)) (bytes : List ℕ)
        → (limits : Limits) (one other : Left) → Leaves refuses next words bytes (record { limits = limits; journal = [] }) one
        → Leaves refuses next words bytes (record { limits = limits; journal = [] }) other
        → is_undisturbed one.status ≡ true → is_undisturbed other.status ≡ true → LeftTheSame one other }
{}
