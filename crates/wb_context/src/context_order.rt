//! Which contexts count, and their order.
ghost use Rattle.std.specs.Ordering.{is_lt};
ghost use Rattle.std.specs.Prelude.{◌≡◌, IfOk, OnOk};
ghost use Rattle.wb_context.specs.ContextOrder.{best_first, contexts_for, contexts_in_order, counting, has_longer_path, is_better, longest_first};
ghost use Rattle.wb_context.specs.Firsts.{first_of_each};
ghost use Rattle.wb_context.specs.declared.context.Context.{Context};

use crate::Context;
use crate::context::default_context;
use crate::context_paths::covers;
use prop_map::OutOfMemory;
use std::alloc::Global;
use std::cmp::Ordering;
use text_index::TextSet;

/// The contexts that count, the built-in one among them: of one name the best service's, and `default` where no other has
/// that name. The longest path comes first, and of paths as long the better service; the built-in one is the last of all.
///
/// # Errors
/// Only want of memory.
pub fn contexts_in_order(alloc: Global, contexts: Vec<Context>) -> Result<Vec<Context>, OutOfMemory>
    ensures { IfOk result (λ ordered. ordered.items ≡ contexts_in_order contexts.items) }
{
    let mut ordered = counting(alloc, contexts)?;
    sort_longest_first(&mut ordered)?;
    Ok(ordered)
}

/// Those of them in which a request's path lies, in the order in which it is looked up.
///
/// # Errors
/// Only want of memory.
pub fn in_order(
    alloc: Global,
    contexts: Vec<Context>,
    path: &str,
) -> Result<Vec<Context>, OutOfMemory>
    ensures { IfOk result (λ ordered. ordered.items ≡ contexts_for path.now contexts.items) }
{
    let ordered = contexts_in_order(alloc, contexts)?;
    let mut covering = Vec::new(alloc);
    for context in ordered {
        if covers(context.path.as_str().as_bytes(), path.as_bytes()) {
            covering.push(context)?;
        }
    }
    Ok(covering)
}

fn counting(alloc: Global, contexts: Vec<Context>) -> Result<Vec<Context>, OutOfMemory>
    ensures { IfOk result (λ counted. counted.items ≡ counting contexts.items) }
{
    let mut contexts = contexts;
    sort_best_first(&mut contexts)?;
    contexts.push(default_context(alloc)?)?;
    first_of_each_name(alloc, contexts)
}

fn first_of_each_name(alloc: Global, contexts: Vec<Context>) -> Result<Vec<Context>, OutOfMemory>
    ensures { IfOk result (λ firsts. firsts.items ≡ first_of_each (λ (c : Context). c.name) contexts.items) }
{
    let mut names = TextSet::new(alloc);
    let mut firsts = Vec::new(alloc);
    for context in contexts {
        if names.insert(alloc, context.name.as_str().as_bytes())? {
            firsts.push(context)?;
        }
    }
    Ok(firsts)
}

fn sort_best_first(contexts: &mut Vec<Context>) -> Result<(), OutOfMemory>
    ensures { OnOk result (contexts.new.items ≡ best_first contexts.old.items) }
{
    contexts.sort_by(|a, b| better_order(a, b))
}

fn better_order(a: &Context, b: &Context) -> Ordering
    ensures { is_lt result ≡ is_better a.now b.now }
{
    b.ranking.cmp(&a.ranking).then(a.service.cmp(&b.service))
}

fn sort_longest_first(contexts: &mut Vec<Context>) -> Result<(), OutOfMemory>
    ensures { OnOk result (contexts.new.items ≡ longest_first contexts.old.items) }
{
    contexts.sort_by(|a, b| length_order(a, b))
}

fn length_order(a: &Context, b: &Context) -> Ordering
    ensures { is_lt result ≡ has_longer_path a.now b.now }
{
    b.path.as_str().len().cmp(&a.path.as_str().len())
}
