//! Laws for contracts alone.
ghost use Rattle.std.specs.Prelude.{◌≡◌, ℕ, List, Bool, true, filter};
ghost use Rattle.std.specs.List.{Contains};
ghost use Rattle.component_state.specs.ComponentConfigurations.{components_after, is_same_component};
ghost use Rattle.component_state.specs.declared.component.Component.{Component};
ghost use Rattle.journal_core.specs.declared.entry.Entry.{Entry};
ghost use Rattle.scr_laws.specs.Askeds.{AreAsked, IsAsked, asked_in};
ghost use Rattle.scr_world.specs.Consequences.{stopped_by};
ghost use Rattle.scr_world.specs.Legal.{IsLegal};
ghost use Rattle.scr_world.specs.Lists.{world_after_entry, world_of};
ghost use Rattle.scr_world.specs.Stepping.{counted_components};
ghost use Rattle.scr_world.specs.Steps.{History};
ghost use Rattle.scr_world.specs.declared.step.Step.{Step};
ghost use Rattle.scr_world.specs.declared.world.World.{World};

/// Asking twice is asking once, where what is asked for lives and no two are the same.
pub fn note_asking_twice()
    ensures asks { (these : List Component) → ((a : Component) → Contains these a → a.exists ≡ true) → ((a b : Component) → Contains these a → Contains these b → is_same_component a b ≡ true → a ≡ b) → (place came : ℕ) (before : List Component) → AreAsked these (components_after place came these before) }
    ensures stays { (these cs : List Component) → AreAsked these cs → (place came : ℕ) → components_after place came these cs ≡ cs }
    ensures forgets { (these cs : List Component) → AreAsked these cs → (t : Component → Bool) → ((c : Component) → Contains cs c → c.exists ≡ true → t c ≡ true) → AreAsked these (filter t cs) }
{}

/// Every entry whose stopped bundles are those that have stopped keeps the component configurations as they are asked for.
pub fn note_entry_keeps_asked()
    ensures { (w : World) (entry : Entry Step) → IsAsked w → entry.stopped ≡ stopped_by entry.step w → IsAsked (world_after_entry entry w) }
{}

/// In every world of a legal history the component configurations are as they are asked for.
pub fn note_legal_is_asked()
    ensures { (limit : ℕ) (past : History) → IsLegal limit past → IsAsked (world_of past) }
{}

/// Asking anew changes nothing but that those are forgotten that ceased without an instance.
pub fn note_asking_leaves()
    ensures { (w : World) → IsAsked w → (place came : ℕ) → components_after place came (asked_in w) (counted_components w) ≡ counted_components w }
{}
