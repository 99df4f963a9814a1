//! The servlets that the whiteboard's instance holds, with their routes.
ghost use Rattle.scr_readers.specs.Reaching.{held_rows};
ghost use Rattle.scr_requests.specs.Requests.{AreServletsOf};
ghost use Rattle.scr_world.specs.Calls.{world_at};
ghost use Rattle.std.specs.Prelude.{◌≡◌, IfOk, codes};
ghost use Rattle.wb_routes.specs.Listing.{routing_of};

use prop_map::{List, OutOfMemory, Str};
use scr_core::Core;
use service_registry::ServiceRow;
use std::alloc::Global;
use wb_routes::Routes;

/// The servlets' services, their routes, and the length of the journal at which these were made.
#[derive(Drop)]
pub struct Servlets {
    /// The length of the journal.
    pub made_at: u64,
    /// The routes.
    pub routes: Routes,
    /// The services that the whiteboard's instance holds as servlets, best first.
    pub rows: List<ServiceRow>,
}

// What the whiteboard's instance holds for a reference.
fn held_by_board(
    alloc: Global,
    core: &Core,
    reference: &str,
) -> Result<List<ServiceRow>, OutOfMemory>
    ensures { IfOk result (λ rows.
        rows ≡ held_rows (world_at core.now.journal) reference.now (world_at core.now.journal).whiteboard) }
{
    core.note_legal();
    let reference = Str::spell(alloc, reference)?;
    core.held_services(alloc, 0, &reference)
}

// The routes over these servlets.
fn routes_over(alloc: Global, core: &Core, rows: &[ServiceRow]) -> Result<Routes, OutOfMemory>
    ensures { IfOk result (λ routes.
        routes ≡ routing_of (held_rows (world_at core.now.journal) (codes "contexts")
        (world_at core.now.journal).whiteboard) rows.now) }
{
    let contexts = held_by_board(alloc, core, "contexts")?;
    Routes::of(alloc, contexts.as_slice(), rows)
}

impl Servlets {
    /// The servlets in the world of a core's journal.
    ///
    /// # Errors
    /// Only want of memory.
    pub fn of(alloc: Global, core: &Core) -> Result<Servlets, OutOfMemory>
        ensures { IfOk result (AreServletsOf core.now.journal) }
    {
        let rows = held_by_board(alloc, core, "servlets")?;
        let routes = routes_over(alloc, core, rows.as_slice())?;
        Ok(Servlets {
            made_at: core.journal().length(),
            routes,
            rows,
        })
    }
}
