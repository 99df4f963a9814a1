//! Services of the whiteboard.

use prop_map::{List, OutOfMemory, Properties, Str, Value};
use service_registry::{Interfaces, ServiceRow};
use std::alloc::Global;

fn set_text(
    alloc: Global,
    properties: &mut Properties,
    key: &str,
    value: &str,
) -> Result<(), OutOfMemory> {
    let value = Str::spell(alloc, value)?;
    properties.set(alloc, key, Value::Text(value))
}

fn properties(alloc: Global, texts: &[(&str, &str)]) -> Result<Properties, OutOfMemory> {
    let mut properties = Properties::new(alloc);
    for (key, value) in texts {
        set_text(alloc, &mut properties, key, value)?;
    }
    Ok(properties)
}

/// A service with these texts among its properties.
pub(crate) fn service(
    alloc: Global,
    id: u64,
    texts: &[(&str, &str)],
) -> Result<ServiceRow, OutOfMemory> {
    let interfaces = Interfaces::of(alloc, List::of(Vec::new(alloc)))?;
    Ok(ServiceRow {
        id,
        bundle: 1,
        interfaces,
        properties: properties(alloc, texts)?,
        revision: 0,
        direct: false,
    })
}

/// A service with this property.
pub(crate) fn with_value(
    alloc: Global,
    id: u64,
    key: &str,
    value: Value,
) -> Result<ServiceRow, OutOfMemory> {
    let mut row = service(alloc, id, &[])?;
    row.properties.set(alloc, key, value)?;
    Ok(row)
}

/// A service with a text and a ranking.
pub(crate) fn better(
    alloc: Global,
    id: u64,
    key: &str,
    text: &str,
    ranking: i64,
) -> Result<ServiceRow, OutOfMemory> {
    let mut row = service(alloc, id, &[(key, text)])?;
    row.properties
        .set(alloc, "service.ranking", Value::Whole(ranking))?;
    Ok(row)
}

fn add(alloc: Global, texts: &mut Vec<Str>, text: &str) -> Result<(), OutOfMemory> {
    let text = Str::spell(alloc, text)?;
    texts.push(text)?;
    Ok(())
}

/// Two texts.
pub(crate) fn two_texts(alloc: Global, first: &str, second: &str) -> Result<Value, OutOfMemory> {
    let mut texts = Vec::new(alloc);
    add(alloc, &mut texts, first)?;
    add(alloc, &mut texts, second)?;
    Ok(Value::Texts(List::of(texts)))
}

/// A context.
pub(crate) fn context(
    alloc: Global,
    id: u64,
    name: &str,
    path: &str,
) -> Result<ServiceRow, OutOfMemory> {
    let name = ("osgi.http.whiteboard.context.name", name);
    let path = ("osgi.http.whiteboard.context.path", path);
    service(alloc, id, &[name, path])
}

/// A servlet in the context `default`.
pub(crate) fn servlet(alloc: Global, id: u64, pattern: &str) -> Result<ServiceRow, OutOfMemory> {
    service(
        alloc,
        id,
        &[("osgi.http.whiteboard.servlet.pattern", pattern)],
    )
}
