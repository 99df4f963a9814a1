//! Patterns of topics.
ghost use Rattle.event_admin.specs.Beginnings.{IsLongest};
ghost use Rattle.event_admin.specs.Patterns.{begins_with_slash, covers, form_of, is_pattern, pattern_of};
ghost use Rattle.event_admin.specs.TopicTexts.{text_of};
ghost use Rattle.std.specs.Prelude.{◌≡◌, IfErr, option_map};
ghost use Rattle.std.specs.Result.{result_ok};

use crate::reading::{is_topic, pattern_end};
use crate::{BadTopic, Topic};

/// A pattern of topics, over the bytes of the text that spells it.
#[derive(Clone, Copy, Drop)]
pub enum TopicPattern<'t> {
    /// `*`: all topics.
    Every,
    /// A topic, which covers itself.
    One(&'t [u8]),
    /// A topic without its `/*`: it covers the topics that begin with it and a slash.
    Under(&'t [u8]),
}

impl TopicPattern<'_> {
    /// The pattern that a text spells: `*`, a topic, or a topic with `/*` at its end. It takes no memory.
    ///
    /// # Errors
    /// Exactly where the text is none of these.
    pub fn parse(text: &str) -> Result<TopicPattern<'_>, BadTopic>
        ensures pattern { option_map form_of (result_ok result) ≡ pattern_of text.now }
        ensures fault { IfErr result (λ bad. IsLongest is_pattern text.now bad.at) }
    {
        match spelled(text.as_bytes()) {
            Some(pattern) => Ok(pattern),
            None => Err(BadTopic {
                at: pattern_end(text.as_bytes()),
            }),
        }
    }

    /// Whether the pattern covers a topic. It takes no memory.
    pub fn covers(&self, topic: &Topic<'_>) -> bool
        ensures { result ≡ covers (form_of self.now) (text_of topic.now) }
    {
        let topic = topic.as_str().as_bytes();
        match *self {
            TopicPattern::Every => true,
            TopicPattern::One(text) => text == topic,
            TopicPattern::Under(front) => match topic.strip_prefix(front) {
                Some(rest) => begins_with_slash(rest),
                None => false,
            },
        }
    }
}

fn spelled(text: &[u8]) -> Option<TopicPattern<'_>>
    ensures { option_map form_of result ≡ pattern_of text.now }
{
    if text == b"*".as_slice() {
        return Some(TopicPattern::Every);
    }
    match text.strip_suffix(b"/*") {
        Some(front) => {
            if is_topic(front) {
                Some(TopicPattern::Under(front))
            } else {
                None
            }
        }
        None => {
            if is_topic(text) {
                Some(TopicPattern::One(text))
            } else {
                None
            }
        }
    }
}

fn begins_with_slash(rest: &[u8]) -> bool
    ensures { result ≡ begins_with_slash rest.now }
{
    match rest {
        [first, ..] => *first == b'/',
        [] => false,
    }
}
