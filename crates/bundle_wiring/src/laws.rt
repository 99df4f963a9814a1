//! Laws of resolutions.
ghost use Rattle.bundle_wiring.specs.ByNeed.{wired_to};
ghost use Rattle.bundle_wiring.specs.Resolution.{Bundle, IsGreatest, IsResolution, has_candidate, missing_need};
ghost use Rattle.bundle_wiring.specs.declared.resolved.Resolved.{Resolved};
ghost use Rattle.bundle_wiring.specs.declared.wiring.WireNeed.{WireNeed};
ghost use Rattle.std.specs.List.{All};
ghost use Rattle.std.specs.Prelude.{◌≡◌, List, Bool, filter, is_some, not};

/// For contracts alone: a bundle has a need that isn't optional and has no candidate among the bundles that resolve and
/// bundle 0 exactly where it doesn't resolve.
pub fn note_missing_need()
    ensures { (bundles : List Bundle) (test : Bundle → Bool) → IsGreatest bundles test → All (λ b. is_some (missing_need (filter test bundles) b) ≡ not (test b)) bundles }
{}

/// For contracts alone: bundles have one resolution.
pub fn note_one_resolution()
    ensures { (bundles : List Bundle) (one other : Resolved) → IsResolution bundles one → IsResolution bundles other → one ≡ other }
{}

/// For contracts alone: a need is wired exactly where it has a candidate.
pub fn note_wired_to()
    ensures { (set : List Bundle) (need : WireNeed) → is_some (wired_to set need) ≡ has_candidate set need }
{}

/// For contracts alone: the greatest set of bundles is one, whatever test it is told by.
pub fn note_one_set()
    ensures { (bundles : List Bundle) (test other : Bundle → Bool) → IsGreatest bundles test → IsGreatest bundles other → filter test bundles ≡ filter other bundles }
{}
