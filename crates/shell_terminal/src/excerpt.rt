//! The end of a text, to be shown.

// How many bytes are shown at most.
const MOST: usize = 60;

/// The text before a place, without its beginning where it is long.
pub(crate) fn text_before(text: &str, at: usize) -> &str {
    let front = text.get(..at).unwrap_or(text);
    let mut from = front.len().saturating_sub(MOST);
    for _ in 0..4u8 {
        if let Some(end) = front.get(from..) {
            return end;
        }
        from = from.saturating_add(1);
    }
    front
}
