//! Contexts.
ghost use Rattle.std.specs.Option.{option_copied};
ghost use Rattle.std.specs.Prelude.{◌≡◌, IfOk};
ghost use Rattle.service_registry.specs.Services.{ranking};
ghost use Rattle.wb_context.specs.ContextForms.{is_name, is_path};
ghost use Rattle.wb_context.specs.Contexts.{TellsContext, context_of, context_with, default_context, text_if};

use crate::ContextFault;
use crate::context_forms::{is_name, is_path};
use prop_map::{Copies, OutOfMemory, Properties, Str, Value};
use service_registry::{ServiceRow, ranking};
use std::alloc::Global;

const NAME: &str = "osgi.http.whiteboard.context.name";

const PATH: &str = "osgi.http.whiteboard.context.path";

/// A context of the whiteboard.
#[derive(Drop)]
pub struct Context {
    /// Its service's number, 0 for the built-in context.
    pub service: u64,
    /// Its name.
    pub name: Str,
    /// Its path, `/` or one that begins with a slash and doesn't end with one.
    pub path: Str,
    /// Its service's properties.
    pub properties: Properties,
    /// Its service's ranking.
    pub ranking: i32,
}

/// The context that a service is.
///
/// # Errors
/// `BadContextName`, then `BadContextPath`, exactly where that property isn't a text of the form that it is to have; else
/// only want of memory.
pub fn read_context(alloc: Global, row: &ServiceRow) -> Result<Context, ContextFault>
    ensures { TellsContext (context_of row.now) result }
{
    let name = text_if_name(row.properties.get(NAME));
    let path = text_if_path(row.properties.get(PATH));
    context_with(alloc, row, name, path)
}

fn context_with(
    alloc: Global,
    row: &ServiceRow,
    name: Option<&Str>,
    path: Option<&Str>,
) -> Result<Context, ContextFault>
    ensures { TellsContext (context_with row.now (option_copied name.entry) (option_copied path.entry)) result }
{
    match (name, path) {
        (None, _) => Err(ContextFault::BadContextName),
        (Some(_), None) => Err(ContextFault::BadContextPath),
        (Some(name), Some(path)) => Ok(context_of(alloc, row, name, path)?),
    }
}

fn context_of(
    alloc: Global,
    row: &ServiceRow,
    name: &Str,
    path: &Str,
) -> Result<Context, OutOfMemory>
    ensures { IfOk result (λ context. Ok context ≡ context_with row.now (Some name.now) (Some path.now)) }
{
    Ok(Context {
        service: row.id,
        name: name.copy(alloc)?,
        path: path.copy(alloc)?,
        properties: row.properties.copy(alloc)?,
        ranking: ranking_of(&row.properties),
    })
}

fn text_if_name(value: Option<&Value>) -> Option<&Str>
    ensures { option_copied result ≡ text_if is_name (option_copied value.entry) }
{
    match value {
        Some(Value::Text(text)) if is_name(text.as_str().as_bytes()) => Some(text),
        _ => None,
    }
}

fn text_if_path(value: Option<&Value>) -> Option<&Str>
    ensures { option_copied result ≡ text_if is_path (option_copied value.entry) }
{
    match value {
        Some(Value::Text(text)) if is_path(text.as_str().as_bytes()) => Some(text),
        _ => None,
    }
}

fn ranking_of(properties: &Properties) -> i32
    ensures { result ≡ ranking properties.now }
{
    ranking(properties) as i32
}

/// The built-in context, `default` at `/`.
pub(crate) fn default_context(alloc: Global) -> Result<Context, OutOfMemory>
    ensures { IfOk result (λ context. context ≡ default_context) }
{
    let name = Str::of(String::from_str(alloc, "default")?);
    let path = Str::of(String::from_str(alloc, "/")?);
    let mut properties = Properties::new(alloc);
    properties.set(alloc, NAME, Value::Text(name.copy(alloc)?))?;
    properties.set(alloc, PATH, Value::Text(path.copy(alloc)?))?;
    Ok(Context {
        service: 0,
        name,
        path,
        properties,
        ranking: 0,
    })
}
