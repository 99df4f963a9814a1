//! What holds once a settling is over. Our own; what is right is OSGi Compendium 8, chapter 112.
ghost use Rattle.kind_trait.specs.Meanings.{Told};
ghost use Rattle.platform_hall.specs.Platforms.{SettlesAs, none_under_way, world};
ghost use Rattle.platform_hall.specs.SettleBounds.{IsBounded};
ghost use Rattle.prop_map.specs.declared.properties.Property.{Property};
ghost use Rattle.scr_requests.specs.Cores.{CoreView};
ghost use Rattle.scr_promises.specs.Names.{HaveOwnNames};
ghost use Rattle.scr_world.specs.Legal.{IsLegal};
ghost use Rattle.scr_world.specs.Quiet.{IsQuiet, IsRight};
ghost use Rattle.scr_world.specs.Steps.{history_of};
ghost use Rattle.std.specs.Prelude.{◌≡◌, ℕ, Bool, List, Ok, Result, true};
ghost use Rattle.turn_runner.specs.declared.settle_fault.SettleFault.{SettleFault};

/// For contracts alone: a settling that is over ends each turn that it begins, so where no turn was under way before, none is
/// afterwards.
pub fn note_turns_end()
    ensures { (refuses : List ℕ → List Property → Told → Bool) → (turns count : ℕ) → (before after : CoreView) → IsLegal before.limits.journal (history_of before.journal) → none_under_way before ≡ true → SettlesAs refuses turns before (Ok count) after → none_under_way after ≡ true }
{}

/// For contracts alone: once a settling is over and no turn was under way before it, the journal is quiet and right.
pub fn note_rest()
    ensures quiet { (refuses : List ℕ → List Property → Told → Bool) → (turns count : ℕ) → (before after : CoreView) → IsLegal before.limits.journal (history_of before.journal) → none_under_way before ≡ true → SettlesAs refuses turns before (Ok count) after → IsQuiet (world after) }
    ensures right { (refuses : List ℕ → List Property → Told → Bool) → (turns count : ℕ) → (before after : CoreView) → IsLegal before.limits.journal (history_of before.journal) → none_under_way before ≡ true → SettlesAs refuses turns before (Ok count) after → IsRight (world after) }
{}

/// For contracts alone: where a settling begins on a calm platform, the references of each installed description differ in name,
/// and no creation or activation ends other than Done in it, no component configuration closes in it, and at most as many turns
/// begin as the settle bound of the journal before it says. So it answers at most that number, and `Unsettled` only where the
/// limit of turns is below it.
pub fn note_settle_bound()
    ensures { (refuses : List ℕ → List Property → Told → Bool) → (before after : CoreView) → (answer : Result ℕ SettleFault) → IsLegal before.limits.journal (history_of before.journal) → HaveOwnNames (world before) → SettlesAs refuses before.limits.turns before answer after → IsBounded before answer after }
{}
