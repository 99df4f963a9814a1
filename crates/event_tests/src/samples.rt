//! Services, events and posts.

use event_admin::{Event, Post, Topic};
use prop_map::{List, OutOfMemory, Properties, Str, Value};
use service_registry::{Interfaces, ServiceRow};
use std::alloc::Global;

/// A text.
pub(crate) fn text(alloc: Global, text: &str) -> Result<Value, OutOfMemory> {
    Ok(Value::Text(Str::spell(alloc, text)?))
}

fn add(alloc: Global, list: &mut Vec<Str>, text: &str) -> Result<(), OutOfMemory> {
    let text = Str::spell(alloc, text)?;
    list.push(text)?;
    Ok(())
}

/// Several texts.
pub(crate) fn texts(alloc: Global, texts: &[&str]) -> Result<Value, OutOfMemory> {
    let mut list = Vec::new(alloc);
    for text in texts {
        add(alloc, &mut list, text)?;
    }
    Ok(Value::Texts(List::of(list)))
}

fn ranked(
    alloc: Global,
    properties: &mut Properties,
    ranking: i64,
    key: &str,
    value: Value,
) -> Result<(), OutOfMemory> {
    properties.set(alloc, key, value)?;
    properties.set(alloc, "service.ranking", Value::Whole(ranking))
}

fn without_interfaces(alloc: Global) -> Result<Interfaces, OutOfMemory> {
    Interfaces::of(alloc, List::of(Vec::new(alloc)))
}

/// A service with a ranking and one property more.
pub(crate) fn service(
    alloc: Global,
    id: u64,
    ranking: i64,
    key: &str,
    value: Value,
) -> Result<ServiceRow, OutOfMemory> {
    let interfaces = without_interfaces(alloc)?;
    let mut properties = Properties::new(alloc);
    ranked(alloc, &mut properties, ranking, key, value)?;
    Ok(ServiceRow {
        id,
        bundle: 1,
        interfaces,
        properties,
        revision: 0,
        direct: false,
    })
}

/// An event with one number among its properties.
pub(crate) fn event(alloc: Global, topic: &Topic<'_>, v: i64) -> Result<Event, OutOfMemory> {
    let mut properties = Properties::new(alloc);
    properties.set(alloc, "v", Value::Whole(v))?;
    Event::of(alloc, topic, properties)
}

/// A post without handlers, if there is memory for it.
pub(crate) fn post(alloc: Global, publisher: u64, number: u64) -> Option<Post> {
    let topic = Topic::parse("a").ok()?;
    let event = Event::of(alloc, &topic, Properties::new(alloc)).ok()?;
    Some(Post {
        publisher,
        number,
        front: 0,
        event,
        handlers: Vec::new(alloc),
    })
}
