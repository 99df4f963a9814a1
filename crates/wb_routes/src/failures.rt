//! What isn't in effect, and why.
ghost use Rattle.std.specs.List.{list_any};
ghost use Rattle.std.specs.Ordering.{is_lt};
ghost use Rattle.std.specs.Prelude.{◌≡◌, ◌++◌, OnOk, flat_map, map, not};
ghost use Rattle.prop_map.specs.Words.{in_order};
ghost use Rattle.wb_routes.specs.Listing.{bad_pattern, cause_of, failure_of, failures_of, fails_before, is_selected, owns};
ghost use Rattle.wb_routes.specs.Tables.{AllAscend, Ascends};
ghost use Rattle.wb_routes.specs.declared.route_failure.RouteFailure.{RouteFailure};

use crate::servlet::Servlet;
use crate::table::{Table, owner_in};
use crate::{RouteCause, RouteFailure};
use prop_map::{Copies, OutOfMemory, Str};
use std::alloc::Global;
use std::cmp::Ordering;

/// Adds the failures of servlets.
///
/// # Errors
/// Only want of memory; some may have been added then.
pub(crate) fn push_failures(
    alloc: Global,
    failures: &mut Vec<RouteFailure>,
    tables: &[Table],
    servlets: &[Servlet],
) -> Result<(), OutOfMemory>
    requires { AllAscend tables.now }
    ensures { OnOk result (failures.new.items ≡ failures.old.items ++ flat_map (failures_of tables.now) servlets.now) }
{
    for servlet in servlets {
        push_faulty(alloc, failures, servlet)?;
        push_unowned(alloc, failures, tables, servlet)?;
    }
    Ok(())
}

fn push_faulty(
    alloc: Global,
    failures: &mut Vec<RouteFailure>,
    servlet: &Servlet,
) -> Result<(), OutOfMemory>
    ensures { OnOk result (failures.new.items ≡ failures.old.items ++ map (bad_pattern servlet.now) servlet.now.faulty) }
{
    for text in servlet.faulty.as_slice() {
        let pattern = text.copy(alloc)?;
        failures.push(RouteFailure {
            service: servlet.service,
            pattern,
            cause: RouteCause::BadPattern,
        })?;
    }
    Ok(())
}

fn push_unowned(
    alloc: Global,
    failures: &mut Vec<RouteFailure>,
    tables: &[Table],
    servlet: &Servlet,
) -> Result<(), OutOfMemory>
    requires { AllAscend tables.now }
    ensures { OnOk result (failures.new.items ≡ failures.old.items ++ flat_map (failure_of tables.now servlet.now) servlet.now.patterns) }
{
    for text in servlet.patterns.as_slice() {
        if !owns_somewhere(tables, servlet, text) {
            let pattern = text.copy(alloc)?;
            failures.push(RouteFailure {
                service: servlet.service,
                pattern,
                cause: cause_of(tables, servlet),
            })?;
        }
    }
    Ok(())
}

#[tactic(auto, using(crate::proofs::RouteLemmas::ascends_at))]
fn owns_somewhere(tables: &[Table], servlet: &Servlet, text: &Str) -> bool
    requires { AllAscend tables.now }
    ensures { result ≡ list_any (owns servlet.now text.now) tables.now }
{
    for table in tables {
        if owns(table, servlet, text) {
            return true;
        }
    }
    false
}

fn owns(table: &Table, servlet: &Servlet, text: &Str) -> bool
    requires { Ascends table.now.rows }
    ensures { result ≡ owns servlet.now text.now table.now }
{
    if !servlet.select.selects(&table.context) {
        return false;
    }
    match owner_in(table.rows.as_slice(), text.as_str().as_bytes(), b"") {
        Some(owner) => owner == servlet.service,
        None => false,
    }
}

// Why a pattern that the servlet owns nowhere isn't in effect.
fn cause_of(tables: &[Table], servlet: &Servlet) -> RouteCause
    ensures { result ≡ cause_of tables.now servlet.now }
{
    if has_context(tables, servlet) {
        RouteCause::Shadowed
    } else {
        RouteCause::NoContext
    }
}

fn has_context(tables: &[Table], servlet: &Servlet) -> bool
    ensures { result ≡ list_any (is_selected servlet.now) tables.now }
{
    for table in tables {
        if servlet.select.selects(&table.context) {
            return true;
        }
    }
    false
}

/// Puts failures into their order: by service, then by pattern.
///
/// # Errors
/// Only want of memory.
pub(crate) fn sort_failures(failures: &mut Vec<RouteFailure>) -> Result<(), OutOfMemory>
    ensures { OnOk result (failures.new.items ≡ in_order (λ (a b : RouteFailure). not (fails_before b a)) failures.old.items) }
{
    failures.sort_by(|a, b| failure_order(a, b))
}

fn failure_order(a: &RouteFailure, b: &RouteFailure) -> Ordering
    ensures { is_lt result ≡ fails_before a.now b.now }
{
    a.service
        .cmp(&b.service)
        .then(a.pattern.as_str().cmp(b.pattern.as_str()))
}
