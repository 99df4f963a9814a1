//! The first need that keeps a bundle from resolving.
ghost use Rattle.bundle_wiring.specs.ByNeed.{wired_of};
ghost use Rattle.std.specs.Prelude.{◌≡◌, map, option_map};
ghost use Rattle.wiring_reader.specs.Lines.{is_missing, missing};

use bundle_wiring::{WireNeed, WiredNeed};

/// The first of these needs that isn't optional and has no candidate. It takes no memory.
pub(crate) fn missing<'b>(needs: &[WiredNeed<'b>]) -> Option<&'b WireNeed>
    ensures { option_map (λ need. need.now) result ≡ missing (map wired_of needs.now) }
{
    for wired in needs {
        if is_missing(wired) {
            return Some(wired.need);
        }
    }
    None
}

fn is_missing(wired: &WiredNeed) -> bool
    ensures { result ≡ is_missing (wired_of wired.now) }
{
    !wired.need.optional && wired.to.is_none()
}
