//! Laws for contracts alone.
ghost use Rattle.std.specs.Prelude.{◌≡◌, ℕ};
ghost use Rattle.std.specs.List.{Contains};
ghost use Rattle.component_state.specs.declared.component.Component.{Component};
ghost use Rattle.component_state.specs.Periods.{is_open};
ghost use Rattle.scr_laws.specs.Opens.{IsInOrder, IsOpenByRegistered, is_to_be_open, meets_all, some_numbered};
ghost use Rattle.prop_map.specs.Words.{has};
ghost use Rattle.scr_world.specs.Legal.{IsLegal, IsOpenFromScratch};
ghost use Rattle.scr_world.specs.Lists.{world_of};
ghost use Rattle.scr_world.specs.Steps.{History};
ghost use Rattle.scr_world.specs.Worlds.{satisfied_in};
ghost use Rattle.scr_world.specs.declared.world.World.{World};

/// In the world of every legal journal open is exactly what exists, has its configuration, has for each need its minimum among the registered services, isn't
/// failed, and has no living instance of a closed period.
pub fn note_open()
    ensures numbers { (limit : ℕ) (past : History) → IsLegal limit past → (number : ℕ) → is_open (world_of past).open_periods number ≡ some_numbered (is_to_be_open (world_of past)) (world_of past).components number }
    ensures each { (limit : ℕ) (past : History) → IsLegal limit past → (c : Component) → Contains (world_of past).components c → is_open (world_of past).open_periods c.number ≡ is_to_be_open (world_of past) c }
    ensures satisfied { (limit : ℕ) (past : History) → IsLegal limit past → (number : ℕ) → has (satisfied_in (world_of past)) number ≡ some_numbered (meets_all (world_of past)) (world_of past).components number }
{}

/// What it rests on besides holds in the world of every legal journal.
pub fn note_legal()
    ensures { (limit : ℕ) (past : History) → IsLegal limit past → IsInOrder (world_of past) }
{}

/// The same of one world.
pub fn note_opens()
    ensures numbers { (w : World) → IsInOrder w → IsOpenFromScratch w → IsOpenByRegistered w }
    ensures each { (w : World) → IsInOrder w → IsOpenFromScratch w → (c : Component) → Contains w.components c → is_open w.open_periods c.number ≡ is_to_be_open w c }
    ensures satisfied { (w : World) → IsInOrder w → IsOpenFromScratch w → (number : ℕ) → has (satisfied_in w) number ≡ some_numbered (meets_all w) w.components number }
{}

/// And back: where open is what the registered services say, it is what is satisfied from scratch, level by level. So levels add nothing.
pub fn note_scratch()
    ensures { (w : World) → IsInOrder w → IsOpenByRegistered w → IsOpenFromScratch w }
{}
