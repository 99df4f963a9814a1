//! The contexts in which pages are looked up.
ghost use Rattle.std.specs.Option.{option_copied};
ghost use Rattle.std.specs.Prelude.{◌≡◌, IfOk};
ghost use Rattle.wb_context.specs.ContextOrder.{contexts_in_order};
ghost use Rattle.wb_filters.specs.Pages.{first_over};
ghost use Rattle.wb_routes.specs.Listing.{read_contexts};

use prop_map::{List, OutOfMemory};
use service_registry::ServiceRow;
use std::alloc::{AllocError, Global};
use wb_context::{Context, ContextFault, contexts_in_order, covers, read_context};

/// The contexts that count, as a path is looked up in them.
///
/// # Errors
/// Only want of memory.
pub(crate) fn contexts_of(alloc: Global, rows: &[ServiceRow]) -> Result<List<Context>, OutOfMemory>
    ensures { IfOk result (λ contexts. contexts ≡ contexts_in_order (read_contexts rows.now)) }
{
    let read = read_contexts(alloc, rows)?;
    Ok(List::of(contexts_in_order(alloc, read)?))
}

fn read_contexts(alloc: Global, rows: &[ServiceRow]) -> Result<Vec<Context>, OutOfMemory>
    ensures { IfOk result (λ read. read.items ≡ read_contexts rows.now) }
{
    let mut read = Vec::new(alloc);
    for row in rows {
        match read_context(alloc, row) {
            Ok(context) => read.push(context)?,
            Err(ContextFault::OutOfMemory) => return Err(AllocError),
            Err(_) => {}
        }
    }
    Ok(read)
}

/// The first of them in which a path lies. It takes no memory.
#[tactic(auto, using(crate::proofs::FirstLemmas::over_here, crate::proofs::FirstLemmas::over_later))]
pub(crate) fn first_over<'c>(contexts: &'c [Context], path: &[u8]) -> Option<&'c Context>
    ensures { option_copied result ≡ first_over path.now contexts.now }
{
    for context in contexts {
        if covers(context.path.as_str().as_bytes(), path) {
            return Some(context);
        }
    }
    None
}
