//! Which services handle an event.
ghost use Rattle.event_admin.specs.TopicTexts.{text_of};
ghost use Rattle.event_handlers.specs.Handling.{handlers_of, told_of};
ghost use Rattle.event_handlers.specs.Kept.{AreOf, handler_of, ranks_of};
ghost use Rattle.service_registry.specs.declared.row.ServiceRow.{ServiceRow};
ghost use Rattle.std.specs.Prelude.{◌≡◌, IfOk, List, map};

use crate::handler::{Handler, handler_of};
use event_admin::{Event, Topic};
use prop_map::{Copies, OutOfMemory, Properties, Str, Value};
use service_registry::{Ranked, ServiceRow, numbers_best_first};
use std::alloc::Global;
use std::marker::Model;

/// The handlers among services, whose patterns and filters were read. Contracts see what is kept of each service, in
/// the order of the services.
#[derive(Drop)]
pub struct Handlers {
    handlers: Vec<Handler>,
}

impl Model for Handlers {
    ghost use Rattle.event_handlers.specs.declared.handler.Handler.{Handler};
    ghost use Rattle.std.specs.Prelude.{List};

    ghost Value = { List Handler };

    ghost use Rattle.ldap_filter.specs.TreeCodes.{tree_code};
    ghost use Rattle.std.specs.Coded.{codes};

    ghost coded = { Prim.hlevel (codes, tree_code) };

    ghost view = { λ h. h.handlers.items };
}

impl Handlers {
    /// The handlers among services. Each pattern and each filter is read once, here.
    ///
    /// # Errors
    /// Only want of memory.
    pub fn of(alloc: Global, rows: &[ServiceRow]) -> Result<Handlers, OutOfMemory>
        ensures { IfOk result (λ handlers. AreOf rows.now handlers) }
    {
        let handlers = kept(alloc, rows)?;
        Ok(Handlers { handlers })
    }

    /// The numbers of those that handle an event, the best first.
    ///
    /// # Errors
    /// Only want of memory.
    pub fn of_event(&self, alloc: Global, event: &Event) -> Result<Vec<u64>, OutOfMemory>
        ensures { IfOk result
            (λ numbers. (rows : List ServiceRow) → AreOf rows self.now → numbers.items ≡ handlers_of rows event.now) }
    {
        let told = told_of(alloc, event)?;
        let ranks = ranks_of(alloc, self.handlers.as_slice(), &event.topic(), &told)?;
        let numbers = numbers_best_first(alloc, ranks)?;
        Ok(numbers)
    }
}

/// The numbers of the services that handle an event, the best first: those one of whose `event.topics` covers its
/// topic, with no `event.filter`, or one that matches its properties with `event.topics` set to its topic. What is no
/// pattern covers nothing; what is no filter keeps its service out.
///
/// # Errors
/// Only want of memory.
pub fn handlers_of(
    alloc: Global,
    rows: &[ServiceRow],
    event: &Event,
) -> Result<Vec<u64>, OutOfMemory>
    ensures { IfOk result (λ numbers. numbers.items ≡ handlers_of rows.now event.now) }
{
    let handlers = Handlers::of(alloc, rows)?;
    let numbers = handlers.of_event(alloc, event)?;
    Ok(numbers)
}

fn kept(alloc: Global, rows: &[ServiceRow]) -> Result<Vec<Handler>, OutOfMemory>
    ensures { IfOk result (λ handlers. handlers.items ≡ map handler_of rows.now) }
{
    let mut handlers = Vec::new(alloc);
    for row in rows {
        handlers.push(handler_of(alloc, row)?)?;
    }
    Ok(handlers)
}

// What the filters are matched with.
fn told_of(alloc: Global, event: &Event) -> Result<Properties, OutOfMemory>
    ensures { IfOk result (λ told. told ≡ told_of event.now) }
{
    let topic = Str::spell(alloc, event.topic().as_str())?;
    let mut told = event.properties().copy(alloc)?;
    told.set(alloc, "event.topics", Value::Text(topic))?;
    Ok(told)
}

fn ranks_of(
    alloc: Global,
    handlers: &[Handler],
    topic: &Topic<'_>,
    told: &Properties,
) -> Result<Vec<Ranked>, OutOfMemory>
    ensures { IfOk result (λ ranks. ranks.items ≡ ranks_of (text_of topic.now) told.now handlers.now) }
{
    let mut ranks = Vec::new(alloc);
    for handler in handlers {
        if handler.takes(topic, told) {
            ranks.push(handler.rank)?;
        }
    }
    Ok(ranks)
}
