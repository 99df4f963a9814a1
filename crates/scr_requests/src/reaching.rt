//! Whom a request reaches.
ghost use Rattle.callback_orders.specs.Lives.{held_for};
ghost use Rattle.prop_map.specs.Words.{has};
ghost use Rattle.scr_readers.specs.Reaching.{held_rows, is_direct};
ghost use Rattle.scr_requests.specs.Requests.{AreServletsOf, IsReach, IsReachAt, reach_by};
ghost use Rattle.scr_world.specs.Calls.{world_at};
ghost use Rattle.std.specs.List.{list_any};
ghost use Rattle.std.specs.Prelude.{◌≡◌, ◌==◌, ◌&&◌, IfOk, codes, true};

use crate::Servlets;
use prop_map::OutOfMemory;
use scr_core::{Core, Live};
use service_registry::ServiceRow;
use std::alloc::Global;

/// Whom a request reaches.
#[derive(Drop)]
pub enum Reach {
    /// Nobody: no servlet is chosen for its path.
    Nowhere,
    /// Nobody: a command registered the servlet's service, or the platform did, and there is no object behind it.
    Objectless {
        /// The service's number.
        service: u64,
    },
    /// Nobody: the servlet's instance is ending.
    Ending {
        /// The service's number.
        service: u64,
    },
    /// The servlet's instance.
    Standing {
        /// The service's number.
        service: u64,
        /// The instance.
        live: Live,
    },
}

// Whether a service of these rows has no object.
fn has_no_object(rows: &[ServiceRow], service: u64) -> bool
    ensures { result ≡ list_any (λ (r : ServiceRow). (r.id == service) && r.direct) rows.now }
{
    rows.iter().any(|row| row.id == service && row.direct)
}

// Whom a request reaches at an active instance.
fn reach_active(core: &Core, service: u64, live: Option<Live>) -> Reach
    ensures { result ≡ reach_by (world_at core.now.journal) service live }
{
    match live {
        Some(live) => {
            if core.ending(live.instance) {
                Reach::Ending { service }
            } else {
                Reach::Standing { service, live }
            }
        }
        None => Reach::Ending { service },
    }
}

// Whom a request reaches at a servlet that the whiteboard's instance holds.
fn reach_servlet(
    alloc: Global,
    core: &Core,
    rows: &[ServiceRow],
    service: u64,
) -> Result<Reach, OutOfMemory>
    requires held { has (held_for (codes "servlets") (world_at core.now.journal).whiteboard.callbacks) service ≡ true }
    requires rows { rows.now ≡ held_rows (world_at core.now.journal) (codes "servlets")
        (world_at core.now.journal).whiteboard }
    ensures { IfOk result (IsReachAt (world_at core.now.journal) service) }
{
    core.note_legal();
    if has_no_object(rows, service) {
        return Ok(Reach::Objectless { service });
    }
    let live = core.active(alloc, service, 0)?;
    Ok(reach_active(core, service, live))
}

/// Whom a request reaches by its path, over the servlets of the core's journal as it is.
///
/// # Errors
/// Only want of memory.
pub fn reach_of(
    alloc: Global,
    core: &Core,
    servlets: &Servlets,
    path: &str,
) -> Result<Reach, OutOfMemory>
    requires { AreServletsOf core.now.journal servlets.now }
    ensures { IfOk result (IsReach (world_at core.now.journal) path.now) }
{
    match servlets.routes.choose(path) {
        Some(service) => reach_servlet(alloc, core, servlets.rows.as_slice(), service),
        None => Ok(Reach::Nowhere),
    }
}
