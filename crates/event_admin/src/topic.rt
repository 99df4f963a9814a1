//! Topics.
ghost use Rattle.event_admin.specs.Topics.{is_topic};
ghost use Rattle.std.specs.Prelude.{◌≡◌, true};

use crate::BadTopic;
use crate::reading::topic_end;

/// A topic of events, over the text that spells it.
#[derive(Clone, Copy, Drop)]
pub struct Topic<'t> {
    text: &'t str,
    ghost is_one: { is_topic text.now ≡ true },
}

impl<'t> Topic<'t> {
    ghost use Rattle.event_admin.specs.Beginnings.{IsLongest};
    ghost use Rattle.event_admin.specs.TopicTexts.{text_of};
    ghost use Rattle.event_admin.specs.Topics.{is_topic, topic_of};
    ghost use Rattle.std.specs.Prelude.{◌≡◌, IfErr, option_map, true};
    ghost use Rattle.std.specs.Result.{result_ok};

    /// The topic that a text spells: one or more tokens between slashes, each of one or more ASCII letters, digits, `_`
    /// and `-`. It takes no memory.
    ///
    /// # Errors
    /// Exactly where the text is none.
    pub fn parse(text: &'t str) -> Result<Topic<'t>, BadTopic>
        ensures topic { option_map text_of (result_ok result) ≡ topic_of text.now }
        ensures fault { IfErr result (λ bad. IsLongest is_topic text.now bad.at) }
    {
        match topic_end(text.as_bytes()) {
            None => Ok(Topic { text }),
            Some(at) => Err(BadTopic { at }),
        }
    }

    /// The topic whose text is known to be one.
    pub(crate) fn known(text: &'t str) -> Topic<'t>
        requires { is_topic text.now ≡ true }
        ensures { text_of result ≡ text.now }
    {
        Topic { text }
    }

    /// The text.
    pub fn as_str(&self) -> &'t str
        ensures { result.now ≡ text_of self.now }
    {
        self.text
    }
}
