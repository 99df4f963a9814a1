//! Which contexts a service of the whiteboard selects.
ghost use Rattle.ldap_filter.specs.Texts.{filter_of};
ghost use Rattle.std.specs.Option.{option_copied, option_map_or};
ghost use Rattle.std.specs.Prelude.{◌≡◌, IfOk};
ghost use Rattle.wb_routes.specs.Servlets.{select_by, selects};
ghost use Rattle.wb_routes.specs.declared.select.Select.TheVariants.{ByFilter, Never};

use ldap_filter::{Filter, FilterFault};
use prop_map::{OutOfMemory, Value};
use std::alloc::{AllocError, Global};
use wb_context::Context;

/// Which contexts a servlet selects, or a filter or an error page.
#[derive(Drop)]
pub enum Select {
    /// The one of the name `default`.
    ByDefault,
    /// Those that a filter matches.
    ByFilter(Filter),
    /// None.
    Never,
}

/// What the property `osgi.http.whiteboard.context.select` selects: without it the context `default`; by a text that is a
/// filter those that it matches; else none.
///
/// # Errors
/// Only want of memory.
pub fn select_by(alloc: Global, value: Option<&Value>) -> Result<Select, OutOfMemory>
    ensures { IfOk result (λ select. select ≡ select_by (option_copied value.entry)) }
{
    match value {
        None => Ok(Select::ByDefault),
        Some(Value::Text(text)) => select_of(alloc, text.as_str()),
        Some(_) => Ok(Select::Never),
    }
}

#[tactic(auto, using(crate::proofs::SelectLemmas::by_filter, crate::proofs::SelectLemmas::by_bad, crate::proofs::SelectLemmas::by_deep))]
fn select_of(alloc: Global, text: &str) -> Result<Select, OutOfMemory>
    ensures { IfOk result (λ select. select ≡ option_map_or ByFilter (filter_of text.now) Never) }
{
    match Filter::parse(alloc, text) {
        Ok(filter) => Ok(Select::ByFilter(filter)),
        Err(FilterFault::OutOfMemory) => Err(AllocError),
        Err(FilterFault::BadFilter { .. }) => Ok(Select::Never),
        Err(FilterFault::TooDeep { .. }) => Ok(Select::Never),
    }
}

impl Select {
    /// Whether it selects a context. It takes no memory.
    pub fn selects(&self, context: &Context) -> bool
        ensures { result ≡ selects self.now context.now }
    {
        match self {
            Select::ByDefault => context.name.as_str() == "default",
            Select::ByFilter(filter) => filter.matches(&context.properties),
            Select::Never => false,
        }
    }
}
