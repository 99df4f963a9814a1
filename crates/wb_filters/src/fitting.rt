//! Whether a filter's pattern fits.
ghost use Rattle.std.specs.Prelude.{◌≡◌, is_some};
ghost use Rattle.wb_pattern.specs.Patterns.{form_of};
ghost use Rattle.wb_pattern.specs.Places.{is_extension, place_of};

use wb_pattern::{Pattern, is_at_or_below};

/// Whether a pattern has a place for what is left of a path, whichever it is: `wb_pattern::place` tells which, of a text.
#[tactic(auto, using(crate::proofs::FitLemmas::placed))]
pub(crate) fn fits(pattern: &Pattern<'_>, rest: &[u8]) -> bool
    ensures { result ≡ is_some (place_of (form_of pattern.now) rest.now) }
{
    match *pattern {
        Pattern::Root => rest == b"/".as_slice(),
        Pattern::Exact(path) => rest == path,
        Pattern::Below(path) => is_at_or_below(path, rest),
        Pattern::Ending(extension) => is_extension(extension, rest),
        Pattern::Fallback => true,
    }
}

// Whether it is what follows the last dot of the path's last segment.
fn is_extension(extension: &[u8], path: &[u8]) -> bool
    ensures { result ≡ is_extension extension.now path.now }
{
    match path.strip_suffix(extension) {
        Some(front) => {
            front.strip_suffix(b".").is_some()
                && !(extension.contains(&b'.') || extension.contains(&b'/'))
        }
        None => false,
    }
}
