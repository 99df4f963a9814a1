//! Handlers, as they are kept.
ghost use Rattle.event_admin.specs.Patterns.{covers};
ghost use Rattle.event_admin.specs.TopicTexts.{text_of};
ghost use Rattle.event_handlers.specs.Kept.{handler_of, handler_with, kept_covers, takes};
ghost use Rattle.std.specs.Prelude.{◌≡◌, IfOk};

use crate::admission::{Admission, admission_by};
use crate::kept_pattern::{KeptPattern, patterns_in};
use event_admin::Topic;
use prop_map::{List, OutOfMemory, Properties};
use service_registry::{Ranked, ServiceRow, ranked};
use std::alloc::Global;

const TOPICS: &str = "event.topics";

const FILTER: &str = "event.filter";

/// What is kept of a handler.
#[derive(Drop)]
pub(crate) struct Handler {
    /// What says how good its service is.
    pub(crate) rank: Ranked,
    /// The patterns of the topics that it is told of.
    pub(crate) patterns: List<KeptPattern>,
    /// Which of these events its filter lets in.
    pub(crate) admission: Admission,
}

/// What is kept of the handler that a service is.
///
/// # Errors
/// Only want of memory.
pub(crate) fn handler_of(alloc: Global, row: &ServiceRow) -> Result<Handler, OutOfMemory>
    ensures { IfOk result (λ handler. handler ≡ handler_of row.now) }
{
    let patterns = patterns_in(alloc, row.properties.get(TOPICS))?;
    let admission = admission_by(alloc, row.properties.get(FILTER))?;
    Ok(handler_with(row, patterns, admission))
}

fn handler_with(row: &ServiceRow, patterns: List<KeptPattern>, admission: Admission) -> Handler
    ensures { result ≡ handler_with row.now patterns admission }
{
    Handler {
        rank: ranked(row),
        patterns,
        admission,
    }
}

impl Handler {
    /// Whether it handles an event of a topic that is told so. It takes no memory.
    pub(crate) fn takes(&self, topic: &Topic<'_>, told: &Properties) -> bool
        ensures { result ≡ takes (text_of topic.now) told.now self.now }
    {
        self.covers(topic) && self.admission.admits(told)
    }

    fn covers(&self, topic: &Topic<'_>) -> bool
        ensures { result ≡ kept_covers (text_of topic.now) self.now.patterns }
    {
        for pattern in self.patterns.as_slice() {
            if pattern.covers(topic) {
                return true;
            }
        }
        false
    }
}
