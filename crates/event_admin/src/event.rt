//! Events.
ghost use Rattle.event_admin.specs.Events.{EventView};
ghost use Rattle.event_admin.specs.TopicTexts.{text_of};
ghost use Rattle.std.specs.Prelude.{◌≡◌, IfOk};

use crate::Topic;
use prop_map::{OutOfMemory, Properties, Str};
use std::alloc::Global;
use std::marker::Model;

/// An event (OSGi Compendium 8, section 113.2). Contracts see the text of its topic, and its properties.
#[derive(Drop)]
pub struct Event {
    topic: Str,
    properties: Properties,
}

impl Model for Event {
    ghost use Rattle.event_admin.specs.Events.{EventView};
    ghost use Rattle.event_admin.specs.Topics.{is_topic};
    ghost use Rattle.std.specs.Prelude.{◌≡◌, true};

    ghost Value = { EventView };

    ghost view = { λ e. record { topic = e.topic; properties = e.properties } };

    ghost invariant = { λ e. is_topic e.topic ≡ true };
}

impl Event {
    /// An event with a topic and properties.
    ///
    /// # Errors
    /// Only want of memory. The properties are dropped then.
    pub fn of(
        alloc: Global,
        topic: &Topic<'_>,
        properties: Properties,
    ) -> Result<Event, OutOfMemory>
        ensures { IfOk result (λ event. event ≡ record { topic = text_of topic.now; properties = properties }) }
    {
        let topic = Str::spell(alloc, topic.as_str())?;
        Ok(Event { topic, properties })
    }

    /// Its topic.
    pub fn topic(&self) -> Topic<'_>
        ensures { text_of result ≡ self.now.topic }
    {
        Topic::known(self.topic.as_str())
    }

    /// Its properties.
    pub fn properties(&self) -> &Properties
        ensures { result.now ≡ self.now.properties }
    {
        &self.properties
    }
}
