//! Laws of direct causes, for contracts alone.
ghost use Rattle.component_state.specs.declared.component.Component.{Component};
ghost use Rattle.scr_causes.specs.CauseLaws.{AreBelow, AreConfigured, LackConfigurations, TellWhy};
ghost use Rattle.scr_laws.specs.Opens.{IsInOrder};
ghost use Rattle.scr_world.specs.Legal.{IsOpenFromScratch};
ghost use Rattle.scr_world.specs.declared.world.World.{World};

/// In a world that is in order, where open is what is satisfied from scratch and isn't held back, and each component
/// configuration is configured where its PIDs have configurations that count: one that hasn't ceased has a direct cause
/// exactly where it isn't satisfied. In every world each reference that is told has fewer targets than its minimum, and each
/// PID that is told has no configuration that counts, where the policy asks for one.
pub fn note_direct_causes()
    ensures why { (w : World) → IsInOrder w → IsOpenFromScratch w → AreConfigured w → TellWhy w }
    ensures below { (w : World) (c : Component) → AreBelow w c }
    ensures lack { (w : World) (c : Component) → LackConfigurations w c }
{}
