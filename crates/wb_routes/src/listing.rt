//! The tables of the contexts.
ghost use Rattle.std.specs.Ordering.{is_lt};
ghost use Rattle.std.specs.Prelude.{◌≡◌, ◌++◌, IfOk, OnOk, map};
ghost use Rattle.wb_context.specs.Firsts.{first_of_each};
ghost use Rattle.wb_routes.specs.Listing.{by_pattern, row_of, rows_in, rows_of, table_of};
ghost use Rattle.wb_routes.specs.Tables.{has_less_pattern};
ghost use Rattle.wb_routes.specs.declared.route_row.RouteRow.{RouteRow};

use crate::RouteRow;
use crate::servlet::Servlet;
use crate::table::Table;
use prop_map::{Copies, List, OutOfMemory};
use std::alloc::Global;
use std::cmp::Ordering;
use text_index::TextSet;
use wb_context::Context;

/// The tables of contexts.
///
/// # Errors
/// Only want of memory.
pub(crate) fn tables_of(
    alloc: Global,
    contexts: Vec<Context>,
    servlets: &[Servlet],
) -> Result<Vec<Table>, OutOfMemory>
    ensures { IfOk result (λ tables. tables.items ≡ map (table_of servlets.now) contexts.items) }
{
    let mut tables = Vec::new(alloc);
    for context in contexts {
        tables.push(table_of(alloc, context, servlets)?)?;
    }
    Ok(tables)
}

fn table_of(alloc: Global, context: Context, servlets: &[Servlet]) -> Result<Table, OutOfMemory>
    ensures { IfOk result (λ table. table ≡ table_of servlets.now context) }
{
    let rows = rows_in(alloc, &context, servlets)?;
    Ok(Table {
        context,
        rows: List::of(rows),
    })
}

fn rows_in(
    alloc: Global,
    context: &Context,
    servlets: &[Servlet],
) -> Result<Vec<RouteRow>, OutOfMemory>
    ensures { IfOk result (λ rows. rows.items ≡ rows_in servlets.now context.now) }
{
    let mut rows = Vec::new(alloc);
    for servlet in servlets {
        push_rows(alloc, &mut rows, context, servlet)?;
    }
    let mut firsts = first_of_each_pattern(alloc, rows)?;
    sort_by_pattern(&mut firsts)?;
    Ok(firsts)
}

fn push_rows(
    alloc: Global,
    rows: &mut Vec<RouteRow>,
    context: &Context,
    servlet: &Servlet,
) -> Result<(), OutOfMemory>
    ensures { OnOk result (rows.new.items ≡ rows.old.items ++ rows_of context.now servlet.now) }
{
    if servlet.select.selects(context) {
        push_patterns(alloc, rows, context, servlet)
    } else {
        Ok(())
    }
}

fn push_patterns(
    alloc: Global,
    rows: &mut Vec<RouteRow>,
    context: &Context,
    servlet: &Servlet,
) -> Result<(), OutOfMemory>
    ensures { OnOk result (rows.new.items ≡ rows.old.items ++ map (row_of context.now servlet.now) servlet.now.patterns) }
{
    for pattern in servlet.patterns.as_slice() {
        let path = context.path.copy(alloc)?;
        let pattern = pattern.copy(alloc)?;
        rows.push(RouteRow {
            path,
            pattern,
            service: servlet.service,
        })?;
    }
    Ok(())
}

fn first_of_each_pattern(alloc: Global, rows: Vec<RouteRow>) -> Result<Vec<RouteRow>, OutOfMemory>
    ensures { IfOk result (λ firsts. firsts.items ≡ first_of_each (λ (r : RouteRow). r.pattern) rows.items) }
{
    let mut patterns = TextSet::new(alloc);
    let mut firsts = Vec::new(alloc);
    for row in rows {
        if patterns.insert(alloc, row.pattern.as_str().as_bytes())? {
            firsts.push(row)?;
        }
    }
    Ok(firsts)
}

fn sort_by_pattern(rows: &mut Vec<RouteRow>) -> Result<(), OutOfMemory>
    ensures { OnOk result (rows.new.items ≡ by_pattern rows.old.items) }
{
    rows.sort_by(|a, b| pattern_order(a, b))
}

fn pattern_order(a: &RouteRow, b: &RouteRow) -> Ordering
    ensures { is_lt result ≡ has_less_pattern a.now b.now }
{
    a.pattern.as_str().cmp(b.pattern.as_str())
}
