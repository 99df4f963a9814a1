//! The chains.
ghost use Rattle.service_registry.specs.declared.row.ServiceRow.{ServiceRow};
ghost use Rattle.std.specs.Prelude.{◌≡◌, ℕ, IfOk, List, [], None};
ghost use Rattle.wb_filters.specs.Chaining.{chain_in, chaining_of, page_in};
ghost use Rattle.wb_filters.specs.Chains.{chain_of, next_in};
ghost use Rattle.wb_filters.specs.Pages.{page_of};
ghost use Rattle.wb_routes.specs.Choices.{choice_in};

use crate::board_service::{BoardService, best_by};
use crate::contexts::{contexts_of, first_over};
use crate::filters::next_at;
use crate::pages::page_at;
use prop_map::OutOfMemory;
use service_registry::ServiceRow;
use std::alloc::Global;
use std::marker::Model;
use wb_context::Context;
use wb_routes::Routes;

const FILTER: &str = "osgi.http.whiteboard.filter.pattern";

const PAGE: &str = "osgi.http.whiteboard.servlet.errorPage";

/// Which servlet takes a request's path, which filters it goes through before, and which page tells of a status. Contracts
/// see the routes, the contexts in the order in which a path is looked up in them, and filters and pages, the best first.
#[derive(Drop)]
pub struct Chains {
    routes: Routes,
    contexts: prop_map::List<Context>,
    filters: prop_map::List<BoardService>,
    pages: prop_map::List<BoardService>,
}

impl Model for Chains {
    ghost use Rattle.wb_filters.specs.Chaining.{Chaining};

    ghost Value = { Chaining };

    ghost use Rattle.std.specs.Coded.{codes};
    ghost use Rattle.ldap_filter.specs.TreeCodes.{tree_code};

    ghost coded = { Prim.hlevel (codes, tree_code) };

    ghost view = { λ c. record { routing = c.routes; contexts = c.contexts; filters = c.filters; pages = c.pages } };
}

impl Chains {
    /// The chains over the services that are held as contexts, as servlets, as filters and as error pages, in whatever
    /// order. What is amiss with one of them keeps that one out: a pattern that is none has no place, a select that is no
    /// filter selects no context, and a property that is neither text nor texts has none.
    ///
    /// # Errors
    /// Only want of memory.
    pub fn of(
        alloc: Global,
        contexts: &[ServiceRow],
        servlets: &[ServiceRow],
        filters: &[ServiceRow],
        pages: &[ServiceRow],
    ) -> Result<Chains, OutOfMemory>
        ensures { IfOk result (λ chains. chains ≡ chaining_of contexts.now servlets.now filters.now pages.now) }
    {
        let routes = Routes::of(alloc, contexts, servlets)?;
        let contexts = contexts_of(alloc, contexts)?;
        let filters = best_by(alloc, FILTER, filters)?;
        let pages = best_by(alloc, PAGE, pages)?;
        Ok(Chains {
            routes,
            contexts,
            filters,
            pages,
        })
    }

    /// The service of the servlet that takes a request's path, if one does, as `Routes::choose` tells it. It takes no memory.
    pub fn servlet(&self, path: &str) -> Option<u64>
        ensures { result ≡ choice_in self.now.routing.tables path.now }
    {
        self.routes.choose(path)
    }

    /// The first filter of a path's chain, or the one behind another; none behind one that isn't in the chain. The chain
    /// has, the best first, the filters that select the context in which the servlet takes the path, and one of whose
    /// patterns has a place for the rest; it is empty where no servlet takes the path. It takes no memory.
    pub fn filter(&self, path: &str, after: Option<u64>) -> Option<u64>
        ensures { result ≡ next_in (chain_in self.now path.now) after }
    {
        let home = self.routes.home(path);
        next_at(self.filters.as_slice(), home, path, after)
    }

    /// The page that tells of a status: in the first context in which the path lies, the best that names the status by its
    /// three digits, else, for an error, the best that names its class by `4xx` or `5xx`. It takes no memory.
    pub fn page(&self, path: &str, status: u16) -> Option<u64>
        ensures { result ≡ page_in self.now path.now status }
    {
        let over = first_over(self.contexts.as_slice(), path.as_bytes());
        page_at(self.pages.as_slice(), over, status)
    }

    /// For contracts alone: the chain by what chains are made of is that of the services, and so is the page. Where no
    /// servlet takes a path its chain is empty.
    pub fn note_chains()
        ensures chain { (contexts servlets filters pages : List ServiceRow) (path : List ℕ) →
            chain_in (chaining_of contexts servlets filters pages) path ≡ chain_of contexts servlets filters path }
        ensures page { (contexts servlets filters pages : List ServiceRow) (path : List ℕ) (status : ℕ) →
            page_in (chaining_of contexts servlets filters pages) path status ≡ page_of contexts pages path status }
        ensures lost { (contexts servlets filters pages : List ServiceRow) (path : List ℕ) →
            choice_in (chaining_of contexts servlets filters pages).routing.tables path ≡ None →
            chain_in (chaining_of contexts servlets filters pages) path ≡ [] }
    {}
}
