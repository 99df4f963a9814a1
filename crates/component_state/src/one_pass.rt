//! That there is just one pass, and that what it leaves open is what is satisfied from scratch.
ghost use Rattle.component_state.specs.Inside.Ready.{IsReady};
ghost use Rattle.component_state.specs.Passes.{HasPassed, Stage, held_back_in};
ghost use Rattle.component_state.specs.Periods.{is_open};
ghost use Rattle.component_state.specs.Scratch.{open_from_scratch};
ghost use Rattle.component_state.specs.declared.origin.Origin.{Origin};
ghost use Rattle.component_state.specs.declared.pass.Passed.{Passed};
ghost use Rattle.prop_map.specs.Words.{has};
ghost use Rattle.std.specs.List.{Contains};
ghost use Rattle.std.specs.Prelude.{◌≡◌, ◌≤◌, ℕ};

/// For contracts alone: where no living instance's Create began after the entry, the pass of an entry has one result.
/// And after a pass those are open that are satisfied from scratch and aren't held back.
#[tactic(auto, using(crate::proofs::OnePass::one_pass))]
pub fn note_one_pass()
    ensures one { (s : Stage) → IsReady s → ((l : Origin) → Contains s.origins l → l.created ≤ s.place) → (p q : Passed) → HasPassed s p → HasPassed s q → p ≡ q }
    ensures scratch { (s : Stage) (p : Passed) → HasPassed s p → (number : ℕ) →
        is_open p.open_now number ≡ has (open_from_scratch s.descriptions s.levels s.direct p.open_now s.components (held_back_in s p.open_now)) number }
{}

/// For contracts alone: where what must be so when a pass begins is so, there is a pass.
pub fn note_some_pass()
    ensures { (s : Stage) → IsReady s → (p : Passed) × HasPassed s p }
{}
