//! Patterns of servlets.
ghost use Rattle.std.specs.Option.{option_map};
ghost use Rattle.std.specs.Prelude.{◌≡◌};
ghost use Rattle.std.specs.Result.{result_ok};
ghost use Rattle.wb_pattern.specs.Patterns.{extension_form, form_of, has, path_form, pattern_of};

use thiserror::Error;

/// A pattern of a servlet, over the bytes of the text that spells it.
#[derive(Clone, Copy, Drop)]
pub enum Pattern<'t> {
    /// The empty text: the root of a context alone.
    Root,
    /// `/`: what no other pattern takes.
    Fallback,
    /// A path, which fits itself alone.
    Exact(&'t [u8]),
    /// A path without its `/*`: it fits itself and all below it.
    Below(&'t [u8]),
    /// What follows `*.`: it fits the paths with this extension.
    Ending(&'t [u8]),
}

/// A text spells no pattern.
#[derive(Clone, Copy, Debug, PartialEq, Eq, Error)]
#[error("no pattern of a servlet")]
pub struct BadPattern;

impl Pattern<'_> {
    /// The pattern that a text spells: the empty text; `/`; `*.` and one or more characters that are neither `/` nor `*`;
    /// or a path that begins with `/` and has `*` only in `/*` at its end. It takes no memory.
    ///
    /// # Errors
    /// Exactly where the text is none of these.
    pub fn parse(text: &str) -> Result<Pattern<'_>, BadPattern>
        ensures { option_map form_of (result_ok result) ≡ pattern_of text.now }
    {
        match Pattern::spelled(text.as_bytes()) {
            Some(pattern) => Ok(pattern),
            None => Err(BadPattern),
        }
    }

    /// The pattern that the bytes of a text spell, if they spell one. It takes no memory.
    pub fn spelled(text: &[u8]) -> Option<Pattern<'_>>
        ensures { option_map form_of result ≡ pattern_of text.now }
    {
        match text {
            [] => Some(Pattern::Root),
            [b'/'] => Some(Pattern::Fallback),
            [b'/', ..] => path(text),
            [b'*', b'.', extension @ ..] => ending(extension),
            _ => None,
        }
    }
}

fn path(text: &[u8]) -> Option<Pattern<'_>>
    ensures { option_map form_of result ≡ path_form text.now }
{
    match text.strip_suffix(b"/*") {
        Some(front) => {
            if has_star(front) {
                None
            } else {
                Some(Pattern::Below(front))
            }
        }
        None => {
            if has_star(text) {
                None
            } else {
                Some(Pattern::Exact(text))
            }
        }
    }
}

fn ending(extension: &[u8]) -> Option<Pattern<'_>>
    ensures { option_map form_of result ≡ extension_form extension.now }
{
    if extension.is_empty() || extension.contains(&b'/') || has_star(extension) {
        None
    } else {
        Some(Pattern::Ending(extension))
    }
}

fn has_star(text: &[u8]) -> bool
    ensures { result ≡ has text.now 42 }
{
    text.contains(&b'*')
}
