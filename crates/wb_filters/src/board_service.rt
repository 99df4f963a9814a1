//! Services of filters and of error pages.
ghost use Rattle.prop_map.specs.Words.{in_order};
ghost use Rattle.std.specs.Option.{option_copied};
ghost use Rattle.std.specs.Ordering.{is_lt};
ghost use Rattle.std.specs.Prelude.{◌≡◌, ◌∷◌, [], IfOk, OnOk, not};
ghost use Rattle.wb_filters.specs.BoardServices.{best_by, is_better, service_by, service_with, texts_in};
ghost use Rattle.wb_filters.specs.declared.board_service.BoardService.{BoardService};

use prop_map::{Copies, List, OutOfMemory, Str, Value};
use service_registry::{ServiceRow, ranking};
use std::alloc::Global;
use std::cmp::Ordering;
use wb_routes::{Select, select_by};

const SELECT: &str = "osgi.http.whiteboard.context.select";

/// What the whiteboard takes from the service of a filter or of an error page.
#[derive(Drop)]
pub(crate) struct BoardService {
    pub(crate) service: u64,
    pub(crate) ranking: i64,
    pub(crate) select: Select,
    /// The patterns of a filter, what a page names.
    pub(crate) texts: List<Str>,
}

/// What services are by their property of a key, the best first.
///
/// # Errors
/// Only want of memory.
pub(crate) fn best_by(
    alloc: Global,
    key: &str,
    rows: &[ServiceRow],
) -> Result<List<BoardService>, OutOfMemory>
    ensures { IfOk result (λ services. services ≡ best_by key.now rows.now) }
{
    let mut services = Vec::new(alloc);
    for row in rows {
        services.push(service_by(alloc, key, row)?)?;
    }
    sort_best_first(&mut services)?;
    Ok(List::of(services))
}

fn sort_best_first(services: &mut Vec<BoardService>) -> Result<(), OutOfMemory>
    ensures { OnOk result (services.new.items ≡ in_order (λ (a b : BoardService). not (is_better b a)) services.old.items) }
{
    services.sort_by(|a, b| better_order(a, b))
}

fn better_order(a: &BoardService, b: &BoardService) -> Ordering
    ensures { is_lt result ≡ is_better a.now b.now }
{
    b.ranking.cmp(&a.ranking).then(a.service.cmp(&b.service))
}

fn service_by(alloc: Global, key: &str, row: &ServiceRow) -> Result<BoardService, OutOfMemory>
    ensures { IfOk result (λ service. service ≡ service_by key.now row.now) }
{
    let texts = texts_in(alloc, row.properties.get(key))?;
    let select = select_by(alloc, row.properties.get(SELECT))?;
    Ok(service_with(row, select, texts))
}

fn service_with(row: &ServiceRow, select: Select, texts: List<Str>) -> BoardService
    ensures { result ≡ service_with row.now select texts }
{
    BoardService {
        service: row.id,
        ranking: ranking(&row.properties),
        select,
        texts,
    }
}

fn texts_in(alloc: Global, value: Option<&Value>) -> Result<List<Str>, OutOfMemory>
    ensures { IfOk result (λ texts. texts ≡ texts_in (option_copied value.entry)) }
{
    match value {
        Some(Value::Text(text)) => one(alloc, text.copy(alloc)?),
        Some(Value::Texts(texts)) => texts.copy(alloc),
        _ => Ok(List::of(Vec::new(alloc))),
    }
}

fn one(alloc: Global, text: Str) -> Result<List<Str>, OutOfMemory>
    ensures { IfOk result (λ texts. texts ≡ text ∷ []) }
{
    let mut texts = Vec::new(alloc);
    texts.push(text)?;
    Ok(List::of(texts))
}
