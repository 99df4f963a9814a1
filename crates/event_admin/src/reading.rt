//! Where a text ceases to be a topic, or a pattern of topics.
ghost use Rattle.event_admin.specs.Inside.{Told, pattern_end, topic_end};
ghost use Rattle.event_admin.specs.Topics.{is_token_byte, is_topic};
ghost use Rattle.std.specs.Prelude.{◌≡◌, true};

/// How many of the bytes of a text a topic may begin with, where the text is none. It takes no memory.
pub(crate) fn topic_end(text: &[u8]) -> Option<usize>
    ensures { Told text.now result }
{
    walked(text)
}

fn walked(text: &[u8]) -> Option<usize>
    ensures { result ≡ topic_end true 0 text.now }
{
    let mut fresh = true;
    for (at, byte) in text.iter().enumerate() {
        if is_token_byte(*byte) {
            fresh = false;
        } else if *byte == b'/' && !fresh {
            fresh = true;
        } else {
            return Some(at);
        }
    }
    if fresh { Some(text.len()) } else { None }
}

/// How many of the bytes of a text a pattern may begin with. It takes no memory.
pub(crate) fn pattern_end(text: &[u8]) -> usize
    ensures { result ≡ pattern_end true 0 text.now }
{
    let mut fresh = true;
    for (at, byte) in text.iter().enumerate() {
        if is_token_byte(*byte) {
            fresh = false;
        } else if *byte == b'/' && !fresh {
            fresh = true;
        } else if *byte == b'*' && fresh {
            return at + 1;
        } else {
            return at;
        }
    }
    text.len()
}

/// Whether a text is a topic. It takes no memory.
pub(crate) fn is_topic(text: &[u8]) -> bool
    ensures { result ≡ is_topic text.now }
{
    match topic_end(text) {
        None => true,
        Some(_) => false,
    }
}

fn is_token_byte(byte: u8) -> bool
    ensures { result ≡ is_token_byte byte }
{
    matches!(byte, b'a'..=b'z' | b'A'..=b'Z' | b'0'..=b'9' | b'_' | b'-')
}
