//! The forms of a context's name and path.
ghost use Rattle.std.specs.List.{list_all};
ghost use Rattle.std.specs.Prelude.{◌≡◌};
ghost use Rattle.wb_context.specs.ContextForms.{begins_segment, begins_with_slash, has_full_segments, is_name, is_name_byte, is_path};

/// Whether a text is one or more of letters, digits, `.`, `_` and `-`.
pub(crate) fn is_name(text: &[u8]) -> bool
    ensures { result ≡ is_name text.now }
{
    !text.is_empty() && has_name_bytes(text)
}

fn has_name_bytes(text: &[u8]) -> bool
    ensures { result ≡ list_all is_name_byte text.now }
{
    for byte in text {
        if !is_name_byte(*byte) {
            return false;
        }
    }
    true
}

fn is_name_byte(byte: u8) -> bool
    ensures { result ≡ is_name_byte byte }
{
    matches!(byte, b'a'..=b'z' | b'A'..=b'Z' | b'0'..=b'9' | b'.' | b'_' | b'-')
}

/// Whether a text is `/`, or a slash and segments between slashes, none of which is empty.
pub(crate) fn is_path(text: &[u8]) -> bool
    ensures { result ≡ is_path text.now }
{
    text == b"/".as_slice() || (begins_with_slash(text) && has_full_segments(text))
}

fn begins_with_slash(text: &[u8]) -> bool
    ensures { result ≡ begins_with_slash text.now }
{
    match text {
        [first, ..] => *first == b'/',
        [] => false,
    }
}

fn begins_segment(text: &[u8]) -> bool
    ensures { result ≡ begins_segment text.now }
{
    match text {
        [first, ..] => *first != b'/',
        [] => false,
    }
}

// Whether a byte that is no slash follows each slash.
fn has_full_segments(text: &[u8]) -> bool
    ensures { result ≡ has_full_segments text.now }
{
    for (place, byte) in text.iter().enumerate() {
        if *byte == b'/' && !begins_segment(&text[place + 1..]) {
            return false;
        }
    }
    true
}
