//! Stops that are completed (OSGi Core 8, chapter 4, "Stopping Bundles").
ghost use Rattle.bundle_life.specs.Lives.{BundleTable, is_active, is_stopping, state_is, stop_completed};
ghost use Rattle.bundle_life.specs.declared.bundle.BundleLife.{BundleLife};
ghost use Rattle.bundle_life.specs.Numbers.{AreNumbered};
ghost use Rattle.scr_world.specs.Consequences.{stopped_in};
ghost use Rattle.scr_world.specs.Lists.{world_of};
ghost use Rattle.scr_world.specs.Steps.{History};
ghost use Rattle.scr_world.specs.Tables.{bundles_by};
ghost use Rattle.scr_world.specs.declared.step.Step.{Step};
ghost use Rattle.scr_world.specs.declared.world.World.{World};
ghost use Rattle.std.specs.List.{All, AllPairs};
ghost use Rattle.std.specs.Prelude.{◌≡◌, ◌<◌, ℕ, IsTrue};

use bundle_life::Bundles;

/// Completes the stops of these bundles, each of which is STOPPING: they are RESOLVED then. It takes no memory.
pub fn complete_stops(bundles: &mut Bundles, stopped: &[u64])
    requires stopping { All (λ n. IsTrue (state_is is_stopping bundles.old.rows n)) stopped.now }
    requires rising { AllPairs (λ (a b : ℕ). a < b) stopped.now }
    ensures { bundles.new ≡ stop_completed stopped.now bundles.old }
{
    for &bundle in stopped {
        bundles.stopped(bundle);
    }
}

/// For contracts alone: where the bundles of a world have rising numbers, those that have stopped are STOPPING, and their numbers
/// rise; and where their stops are completed, the same bundles are ACTIVE as before.
pub fn note_stops()
    ensures stopping { (w : World) → AllPairs (λ (a b : BundleLife). a.number < b.number) w.bundles.rows → All (λ n. IsTrue (state_is is_stopping w.bundles.rows n)) (stopped_in w) }
    ensures rising { (w : World) → AllPairs (λ (a b : BundleLife). a.number < b.number) w.bundles.rows → AllPairs (λ (a b : ℕ). a < b) (stopped_in w) }
    ensures active { (w : World) → AllPairs (λ (a b : BundleLife). a.number < b.number) w.bundles.rows
        → (bundle : ℕ) → state_is is_active (stop_completed (stopped_in w) w.bundles).rows bundle ≡ state_is is_active w.bundles.rows bundle }
{}

/// For contracts alone: the bundles of the world of every journal have rising numbers that were given, and those of a table that has
/// such numbers keep them in each step.
pub fn note_bundles()
    ensures world { (history : History) → AreNumbered (world_of history).bundles.numbered (world_of history).bundles.rows }
    ensures step { (step : Step) (t : BundleTable) → AreNumbered t.numbered t.rows → AreNumbered (bundles_by step t).numbered (bundles_by step t).rows }
{}
