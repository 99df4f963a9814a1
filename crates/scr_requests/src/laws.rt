//! Laws of whom requests reach.
ghost use Rattle.callback_orders.specs.Lives.{held_for};
ghost use Rattle.prop_map.specs.Words.{has};
ghost use Rattle.scr_callees.specs.Callees.{IsActiveAt};
ghost use Rattle.scr_calls.specs.Servlets.{choice};
ghost use Rattle.scr_readers.specs.declared.live.Live.{Live};
ghost use Rattle.scr_requests.specs.Requests.{IsReach};
ghost use Rattle.scr_requests.specs.declared.reaching.Reach.TheVariants.{Standing};
ghost use Rattle.scr_world.specs.Legal.{IsLegal};
ghost use Rattle.scr_world.specs.Lists.{world_of};
ghost use Rattle.scr_world.specs.Steps.{History};
ghost use Rattle.scr_world.specs.declared.world.World.{World};
ghost use Rattle.std.specs.Prelude.{◌≡◌, ℕ, List, Some, codes, true};

/// For contracts alone: the servlet that is chosen for a path is of a service that the whiteboard's instance holds.
pub fn note_chosen()
    ensures { (w : World) (path : List ℕ) (service : ℕ) → choice w path ≡ Some service
        → has (held_for (codes "servlets") w.whiteboard.callbacks) service ≡ true }
{}

/// For contracts alone: in a legal journal an instance that a request reaches is active. So its Create is done.
pub fn note_active()
    ensures { (limit : ℕ) (past : History) → IsLegal limit past → (path : List ℕ) (service : ℕ) (live : Live)
        → IsReach (world_of past) path (Standing service live) → IsActiveAt (world_of past) live.instance }
{}
