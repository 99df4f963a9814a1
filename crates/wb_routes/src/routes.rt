//! The routes.
ghost use Rattle.service_registry.specs.declared.row.ServiceRow.{ServiceRow};
ghost use Rattle.std.specs.Option.{option_copied};
ghost use Rattle.std.specs.Prelude.{◌≡◌, ◌++◌, ℕ, IfOk, List, OnOk, flat_map};
ghost use Rattle.wb_context.specs.ContextOrder.{contexts_in_order};
ghost use Rattle.wb_routes.specs.Choices.{choice_among, choice_in, home_among, home_in, taker_at};
ghost use Rattle.wb_routes.specs.Listing.{all_rows, bad_context, read_contexts, routing_of, tables_of};
ghost use Rattle.wb_routes.specs.Servlets.{servlets_of};
ghost use Rattle.wb_routes.specs.Tables.{AllAscend};

use crate::candidates::taker_in;
use crate::failures::{push_failures, sort_failures};
use crate::home::home_in;
use crate::listing::tables_of;
use crate::servlet::servlets_of;
use crate::table::Table;
use crate::{RouteCause, RouteFailure, RouteRow};
use prop_map::{Copies, OutOfMemory, Str};
use service_registry::ServiceRow;
use std::alloc::{AllocError, Global};
use std::marker::Model;
use wb_context::{Context, ContextFault, contexts_in_order, read_context};

/// Which servlet takes a request's path. Contracts see the tables of the contexts, in the order in which a path is looked up
/// in them, and what isn't in effect.
#[derive(Drop)]
pub struct Routes {
    tables: Vec<Table>,
    rows: Vec<RouteRow>,
    failures: Vec<RouteFailure>,
}

impl Model for Routes {
    ghost use Rattle.std.specs.Prelude.{◌≡◌};
    ghost use Rattle.wb_routes.specs.Listing.{Routing, all_rows};
    ghost use Rattle.wb_routes.specs.Tables.{AllAscend};

    ghost Value = { Routing };

    ghost view = { λ r. record { tables = r.tables.items; failures = r.failures.items } };

    ghost invariant = { λ r. (r.rows.items ≡ all_rows r.tables.items) × AllAscend r.tables.items };
}

impl Routes {
    /// The routes over the services that are held as contexts and as servlets, in whatever order.
    ///
    /// # Errors
    /// Only want of memory.
    #[tactic(auto, using(crate::proofs::RouteLemmas::all_ascend))]
    pub fn of(
        alloc: Global,
        contexts: &[ServiceRow],
        servlets: &[ServiceRow],
    ) -> Result<Routes, OutOfMemory>
        ensures { IfOk result (λ routes. routes ≡ routing_of contexts.now servlets.now) }
    {
        let servlets = servlets_of(alloc, servlets)?;
        let mut failures = Vec::new(alloc);
        let read = read_contexts(alloc, &mut failures, contexts)?;
        let ordered = contexts_in_order(alloc, read)?;
        let tables = tables_of(alloc, ordered, servlets.as_slice())?;
        push_failures(alloc, &mut failures, tables.as_slice(), servlets.as_slice())?;
        sort_failures(&mut failures)?;
        let rows = all_rows(alloc, tables.as_slice())?;
        Ok(Routes {
            tables,
            rows,
            failures,
        })
    }

    /// The service of the servlet that takes a request's path, if one does. It is looked for in the contexts in which the
    /// path lies, the longest path first, then the better service; in each the equal pattern counts first, then the longest
    /// above the path, then that of its extension, then `/`. It takes no memory.
    pub fn choose(&self, path: &str) -> Option<u64>
        ensures { result ≡ choice_in self.now.tables path.now }
    {
        choose_in(self.tables.as_slice(), path.as_bytes())
    }

    /// For contracts alone: the choice in the tables is the choice among the contexts that count and the servlets, best
    /// first. In each context the best servlet that has a pattern owns it.
    #[tactic(auto, using(crate::proofs::OwnerLemmas::same_choice))]
    pub fn note_choice()
        ensures { (contexts servlets : List ServiceRow) (path : List ℕ) →
            choice_in (tables_of contexts servlets) path ≡ choice_among (contexts_in_order (read_contexts contexts)) (servlets_of servlets) path }
    {}

    /// The context in which that servlet takes the path, if one does: the first of those in which the path lies that has a
    /// pattern for it. It takes no memory.
    pub fn home(&self, path: &str) -> Option<&Context>
        ensures { option_copied result ≡ home_in self.now.tables path.now }
    {
        home_in(self.tables.as_slice(), path.as_bytes())
    }

    /// For contracts alone: the context that is found in the tables is the first of those that count in which a servlet
    /// takes the path, and the choice is who takes it there. So there is the one exactly where there is the other.
    #[tactic(auto, using(crate::proofs::HomeLemmas::same_home, crate::proofs::HomeLemmas::chosen_at_home))]
    pub fn note_home()
        ensures same { (contexts servlets : List ServiceRow) (path : List ℕ) →
            home_in (tables_of contexts servlets) path ≡ home_among (contexts_in_order (read_contexts contexts)) (servlets_of servlets) path }
        ensures chosen { (contexts servlets : List ServiceRow) (path : List ℕ) →
            choice_among (contexts_in_order (read_contexts contexts)) (servlets_of servlets) path
            ≡ taker_at (servlets_of servlets) path (home_among (contexts_in_order (read_contexts contexts)) (servlets_of servlets) path) }
    {}

    /// The patterns that are in effect: the contexts as a path is looked up in them, and the patterns of each in byte order.
    pub fn rows(&self) -> &[RouteRow]
        ensures { result.now ≡ all_rows self.now.tables }
    {
        self.rows.as_slice()
    }

    /// What isn't in effect, by service, then by pattern.
    pub fn failures(&self) -> &[RouteFailure]
        ensures { result.now ≡ self.now.failures }
    {
        self.failures.as_slice()
    }
}

#[tactic(auto, using(crate::proofs::RouteLemmas::ascends_at, crate::proofs::RouteLemmas::chosen_here, crate::proofs::RouteLemmas::chosen_later))]
fn choose_in(tables: &[Table], path: &[u8]) -> Option<u64>
    requires { AllAscend tables.now }
    ensures { result ≡ choice_in tables.now path.now }
{
    for table in tables {
        if let Some(service) = taker_in(table, path) {
            return Some(service);
        }
    }
    None
}

// The contexts of services that are some; a failure for each of the others.
fn read_contexts(
    alloc: Global,
    failures: &mut Vec<RouteFailure>,
    rows: &[ServiceRow],
) -> Result<Vec<Context>, OutOfMemory>
    ensures read { IfOk result (λ read. read.items ≡ read_contexts rows.now) }
    ensures failures { OnOk result (failures.new.items ≡ failures.old.items ++ flat_map bad_context rows.now) }
{
    let mut read = Vec::new(alloc);
    for row in rows {
        match read_context(alloc, row) {
            Ok(context) => read.push(context)?,
            Err(ContextFault::OutOfMemory) => return Err(AllocError),
            Err(_) => failures.push(RouteFailure {
                service: row.id,
                pattern: Str::of(String::new(alloc)),
                cause: RouteCause::BadContext,
            })?,
        }
    }
    Ok(read)
}

fn all_rows(alloc: Global, tables: &[Table]) -> Result<Vec<RouteRow>, OutOfMemory>
    ensures { IfOk result (λ rows. rows.items ≡ all_rows tables.now) }
{
    let mut rows = Vec::new(alloc);
    for table in tables {
        push_copies(alloc, &mut rows, table.rows.as_slice())?;
    }
    Ok(rows)
}

fn push_copies(
    alloc: Global,
    rows: &mut Vec<RouteRow>,
    more: &[RouteRow],
) -> Result<(), OutOfMemory>
    ensures { OnOk result (rows.new.items ≡ rows.old.items ++ more.now) }
{
    for row in more {
        rows.push(row.copy(alloc)?)?;
    }
    Ok(())
}
