//! Patterns of topics that own their bytes.
ghost use Rattle.event_admin.specs.Patterns.{covers, form_of};
ghost use Rattle.event_admin.specs.TopicTexts.{text_of};
ghost use Rattle.event_handlers.specs.Kept.{form_kept, pattern_if, patterns_in, patterns_of};
ghost use Rattle.std.specs.Option.{option_copied};
ghost use Rattle.std.specs.Prelude.{◌≡◌, ◌++◌, IfOk, OnOk};

use event_admin::{Topic, TopicPattern};
use prop_map::{List, OutOfMemory, Str, Value};
use std::alloc::Global;

/// A pattern of topics that owns its bytes.
#[derive(Drop)]
pub(crate) enum KeptPattern {
    /// All topics.
    Every,
    /// One topic.
    One(List<u8>),
    /// The topics that begin with this one and a slash.
    Under(List<u8>),
}

impl KeptPattern {
    /// Whether the pattern covers a topic. It takes no memory.
    pub(crate) fn covers(&self, topic: &Topic<'_>) -> bool
        ensures { result ≡ covers (form_kept self.now) (text_of topic.now) }
    {
        let pattern = self.pattern();
        pattern.covers(topic)
    }

    fn pattern(&self) -> TopicPattern<'_>
        ensures { form_of result ≡ form_kept self.now }
    {
        match self {
            KeptPattern::Every => TopicPattern::Every,
            KeptPattern::One(topic) => TopicPattern::One(topic.as_slice()),
            KeptPattern::Under(front) => TopicPattern::Under(front.as_slice()),
        }
    }
}

fn kept(alloc: Global, pattern: TopicPattern<'_>) -> Result<KeptPattern, OutOfMemory>
    ensures { IfOk result (λ kept. form_kept kept ≡ form_of pattern.entry) }
{
    match pattern {
        TopicPattern::Every => Ok(KeptPattern::Every),
        TopicPattern::One(topic) => Ok(KeptPattern::One(List::of(topic.to_vec(alloc)?))),
        TopicPattern::Under(front) => Ok(KeptPattern::Under(List::of(front.to_vec(alloc)?))),
    }
}

/// The patterns that the property of a handler spells, one behind another.
///
/// # Errors
/// Only want of memory.
pub(crate) fn patterns_in(
    alloc: Global,
    value: Option<&Value>,
) -> Result<List<KeptPattern>, OutOfMemory>
    ensures { IfOk result (λ patterns. patterns ≡ patterns_in (option_copied value.entry)) }
{
    match value {
        Some(Value::Text(text)) => pattern_of(alloc, text.as_str()),
        Some(Value::Texts(texts)) => patterns_of(alloc, texts.as_slice()),
        _ => Ok(List::of(Vec::new(alloc))),
    }
}

fn pattern_of(alloc: Global, text: &str) -> Result<List<KeptPattern>, OutOfMemory>
    ensures { IfOk result (λ patterns. patterns ≡ pattern_if text.now) }
{
    let mut patterns = Vec::new(alloc);
    push_pattern(alloc, &mut patterns, text)?;
    Ok(List::of(patterns))
}

fn patterns_of(alloc: Global, texts: &[Str]) -> Result<List<KeptPattern>, OutOfMemory>
    ensures { IfOk result (λ patterns. patterns ≡ patterns_of texts.now) }
{
    let mut patterns = Vec::new(alloc);
    for text in texts {
        push_pattern(alloc, &mut patterns, text.as_str())?;
    }
    Ok(List::of(patterns))
}

// Adds the pattern that a text spells, if it spells one.
fn push_pattern(
    alloc: Global,
    patterns: &mut Vec<KeptPattern>,
    text: &str,
) -> Result<(), OutOfMemory>
    ensures { OnOk result (patterns.new.items ≡ patterns.old.items ++ pattern_if text.now) }
{
    match TopicPattern::parse(text) {
        Ok(pattern) => {
            let kept = kept(alloc, pattern)?;
            patterns.push(kept)?;
            Ok(())
        }
        Err(_) => Ok(()),
    }
}
