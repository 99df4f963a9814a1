//! Which patterns fit a path.
ghost use Rattle.std.specs.Prelude.{◌≡◌};
ghost use Rattle.wb_pattern.specs.Patterns.{form_of};
ghost use Rattle.wb_pattern.specs.Places.{is_at_or_below, is_extension, place_of, placed_if};

use crate::{Pattern, Place};

/// How a pattern fits what is left of a path in its context, which begins with `/`; none where it doesn't. It takes no
/// memory.
pub fn place(pattern: &Pattern<'_>, rest: &str) -> Option<Place>
    ensures { result ≡ place_of (form_of pattern.now) rest.now }
{
    let rest = rest.as_bytes();
    match *pattern {
        Pattern::Root => placed(rest == b"/".as_slice(), 1, 0),
        Pattern::Exact(path) => placed(rest == path, 1, 0),
        Pattern::Below(path) => placed(is_at_or_below(path, rest), 2, path.len()),
        Pattern::Ending(extension) => placed(is_extension(extension, rest), 3, 0),
        Pattern::Fallback => placed(true, 4, 0),
    }
}

fn placed(fits: bool, class: u8, length: usize) -> Option<Place>
    ensures { result ≡ placed_if fits class length }
{
    if fits {
        Some(Place { class, length })
    } else {
        None
    }
}

/// Whether a path is this one, or goes on behind it with a slash. It takes no memory.
pub fn is_at_or_below(base: &[u8], path: &[u8]) -> bool
    ensures { result ≡ is_at_or_below base.now path.now }
{
    match path.strip_prefix(base) {
        Some([]) => true,
        Some([next, ..]) => *next == b'/',
        None => false,
    }
}

// Whether it is what follows the last dot of the path's last segment.
fn is_extension(extension: &[u8], path: &[u8]) -> bool
    ensures { result ≡ is_extension extension.now path.now }
{
    match path.strip_suffix(extension) {
        Some(front) => {
            front.strip_suffix(b".").is_some()
                && !(extension.contains(&b'.') || extension.contains(&b'/'))
        }
        None => false,
    }
}
