//! Servlets.
ghost use Rattle.std.specs.Option.{option_copied};
ghost use Rattle.std.specs.Ordering.{is_lt};
ghost use Rattle.std.specs.Prelude.{◌≡◌, ◌∷◌, [], IfOk, OnOk, filter, not};
ghost use Rattle.prop_map.specs.Words.{in_order};
ghost use Rattle.wb_routes.specs.declared.servlet.Servlet.{Servlet};
ghost use Rattle.wb_routes.specs.Servlets.{each_once, faulty_in, is_better, is_pattern, patterns_in, servlet_of, servlet_with, servlets_of};

use crate::select::{Select, select_by};
use prop_map::{Copies, List, OutOfMemory, Str, Value};
use service_registry::{ServiceRow, ranking};
use std::alloc::Global;
use std::cmp::Ordering;
use text_index::TextSet;
use wb_pattern::Pattern;

const PATTERN: &str = "osgi.http.whiteboard.servlet.pattern";

const SELECT: &str = "osgi.http.whiteboard.context.select";

/// What the whiteboard takes from a servlet's service.
#[derive(Drop)]
pub(crate) struct Servlet {
    pub(crate) service: u64,
    pub(crate) ranking: i64,
    pub(crate) select: Select,
    /// The texts of its patterns, each once.
    pub(crate) patterns: List<Str>,
    /// The texts that spell no pattern, each once; the empty one stands for a property that is neither text nor texts.
    pub(crate) faulty: List<Str>,
}

/// The servlets of services, the best first.
///
/// # Errors
/// Only want of memory.
pub(crate) fn servlets_of(alloc: Global, rows: &[ServiceRow]) -> Result<Vec<Servlet>, OutOfMemory>
    ensures { IfOk result (λ servlets. servlets.items ≡ servlets_of rows.now) }
{
    let mut servlets = Vec::new(alloc);
    for row in rows {
        servlets.push(servlet_of(alloc, row)?)?;
    }
    sort_best_first(&mut servlets)?;
    Ok(servlets)
}

fn sort_best_first(servlets: &mut Vec<Servlet>) -> Result<(), OutOfMemory>
    ensures { OnOk result (servlets.new.items ≡ in_order (λ (a b : Servlet). not (is_better b a)) servlets.old.items) }
{
    servlets.sort_by(|a, b| better_order(a, b))
}

fn better_order(a: &Servlet, b: &Servlet) -> Ordering
    ensures { is_lt result ≡ is_better a.now b.now }
{
    b.ranking.cmp(&a.ranking).then(a.service.cmp(&b.service))
}

fn servlet_of(alloc: Global, row: &ServiceRow) -> Result<Servlet, OutOfMemory>
    ensures { IfOk result (λ servlet. servlet ≡ servlet_of row.now) }
{
    let texts = patterns_in(alloc, row.properties.get(PATTERN))?;
    let faulty = faulty_in(alloc, row.properties.get(PATTERN))?;
    let patterns = only_patterns(alloc, texts.as_slice())?;
    let select = select_by(alloc, row.properties.get(SELECT))?;
    Ok(servlet_with(row, select, patterns, faulty))
}

fn servlet_with(row: &ServiceRow, select: Select, patterns: List<Str>, faulty: List<Str>) -> Servlet
    ensures { result ≡ servlet_with row.now select patterns faulty }
{
    Servlet {
        service: row.id,
        ranking: ranking(&row.properties),
        select,
        patterns,
        faulty,
    }
}

fn patterns_in(alloc: Global, value: Option<&Value>) -> Result<List<Str>, OutOfMemory>
    ensures { IfOk result (λ texts. texts ≡ patterns_in (option_copied value.entry)) }
{
    match value {
        Some(Value::Text(text)) => one(alloc, text.copy(alloc)?),
        Some(Value::Texts(texts)) => each_once(alloc, texts.copy(alloc)?),
        _ => Ok(List::of(Vec::new(alloc))),
    }
}

fn each_once(alloc: Global, texts: List<Str>) -> Result<List<Str>, OutOfMemory>
    ensures { IfOk result (λ firsts. firsts ≡ each_once texts) }
{
    let mut seen = TextSet::new(alloc);
    let mut firsts = Vec::new(alloc);
    for text in texts.items() {
        if seen.insert(alloc, text.as_str().as_bytes())? {
            firsts.push(text)?;
        }
    }
    Ok(List::of(firsts))
}

fn faulty_in(alloc: Global, value: Option<&Value>) -> Result<List<Str>, OutOfMemory>
    ensures { IfOk result (λ texts. texts ≡ faulty_in (option_copied value.entry)) }
{
    match value {
        Some(Value::Text(_)) | Some(Value::Texts(_)) => {
            no_patterns(alloc, patterns_in(alloc, value)?.as_slice())
        }
        _ => one(alloc, Str::of(String::new(alloc))),
    }
}

fn one(alloc: Global, text: Str) -> Result<List<Str>, OutOfMemory>
    ensures { IfOk result (λ texts. texts ≡ text ∷ []) }
{
    let mut texts = Vec::new(alloc);
    texts.push(text)?;
    Ok(List::of(texts))
}

fn is_pattern(text: &str) -> bool
    ensures { result ≡ is_pattern text.now }
{
    Pattern::parse(text).is_ok()
}

fn only_patterns(alloc: Global, texts: &[Str]) -> Result<List<Str>, OutOfMemory>
    ensures { IfOk result (λ patterns. patterns ≡ filter is_pattern texts.now) }
{
    let mut patterns = Vec::new(alloc);
    for text in texts {
        if is_pattern(text.as_str()) {
            patterns.push(text.copy(alloc)?)?;
        }
    }
    Ok(List::of(patterns))
}

fn no_patterns(alloc: Global, texts: &[Str]) -> Result<List<Str>, OutOfMemory>
    ensures { IfOk result (λ faulty. faulty ≡ filter (λ t. not (is_pattern t)) texts.now) }
{
    let mut faulty = Vec::new(alloc);
    for text in texts {
        if !is_pattern(text.as_str()) {
            faulty.push(text.copy(alloc)?)?;
        }
    }
    Ok(List::of(faulty))
}
