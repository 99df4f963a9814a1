//! Services in their order, the best first.
ghost use Rattle.prop_map.specs.Words.{in_order};
ghost use Rattle.service_registry.specs.Services.{ranked_before};
ghost use Rattle.std.specs.Ordering.{is_lt};
ghost use Rattle.service_registry.specs.declared.best_first.Ranked.{Ranked};
ghost use Rattle.std.specs.Prelude.{◌≡◌, IfOk, map};

use prop_map::OutOfMemory;
use std::alloc::Global;
use std::cmp::Ordering;

/// What says how good a service is.
#[derive(Clone, Copy, Debug, PartialEq, Eq)]
pub struct Ranked {
    /// Its ranking.
    pub ranking: i64,
    /// Its number.
    pub id: u64,
}

/// Puts services into their order, the best first. It takes no memory.
pub fn sort_best_first(services: &mut Vec<Ranked>)
    ensures { services.new.items ≡ in_order ranked_before services.old.items }
{
    services.sort_unstable_by(|a, b| rank_order(a, b));
}

fn rank_order(a: &Ranked, b: &Ranked) -> Ordering
    ensures { is_lt result ≡ ranked_before a.now b.now }
{
    b.ranking.cmp(&a.ranking).then(a.id.cmp(&b.id))
}

/// The numbers of services in their order, the best first.
///
/// # Errors
/// Only want of memory.
pub fn numbers_best_first(alloc: Global, services: Vec<Ranked>) -> Result<Vec<u64>, OutOfMemory>
    ensures { IfOk result (λ v. v.items ≡ map (λ (r : Ranked). r.id) (in_order ranked_before services.items)) }
{
    let mut services = services;
    sort_best_first(&mut services);
    services.iter().map(|service| service.id).collect(alloc)
}
