//! The text at the end of a line.

/// The document, the properties or the filter of a line: the number of its first word, and the text from there on.
pub(crate) fn argument(line: &str) -> Option<(usize, &str)> {
    let (word, rest) = line.split_once(' ')?;
    let at = first_of(word)?;
    let mut text = rest;
    for _ in 1..at {
        let (_, behind) = text.split_once(' ')?;
        text = behind;
    }
    Some((at, text))
}

// The number of the first word of that text, by the word of the line.
fn first_of(word: &str) -> Option<usize> {
    match word {
        "install" | "find" => Some(1),
        "update" | "listen" | "config" => Some(2),
        "register" | "set" | "factory" => Some(3),
        _ => None,
    }
}
