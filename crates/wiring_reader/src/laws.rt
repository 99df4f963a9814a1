//! Laws of what is told of wiring.
ghost use Rattle.bundle_wiring.specs.Resolution.{Bundle, IsGreatest};
ghost use Rattle.kept_wirings.specs.DocumentWirings.{wiring_in};
ghost use Rattle.scr_world.specs.declared.contents.Contents.{Contents};
ghost use Rattle.std.specs.List.{All};
ghost use Rattle.std.specs.Prelude.{◌≡◌, ◌&&◌, ℕ, List, Bool, Option, filter, not};
ghost use Rattle.wiring_reader.specs.Parts.{bundle_of, bundles_of, is_faulty};
ghost use Rattle.wiring_reader.specs.Telling.{TellsBundle, TellsWiring, bundle_line, is_resolved};
ghost use Rattle.wiring_reader.specs.declared.wiring_line.NeedLine.{NeedLine};
ghost use Rattle.wiring_reader.specs.declared.wiring_line.WiringLine.{WiringLine};

/// For contracts alone: of the wiring of all bundles only one list of lines is to be told.
pub fn note_one_wiring()
    ensures { (cs : List Contents) (one other : List WiringLine) → TellsWiring cs one → TellsWiring cs other → one ≡ other }
{}

/// For contracts alone: of the wiring of one bundle only one answer is to be told.
pub fn note_one_bundle_wiring()
    ensures { (cs : List Contents) (bundle : ℕ) (one other : Option (List NeedLine)) → TellsBundle cs bundle one → TellsBundle cs bundle other → one ≡ other }
{}

/// For contracts alone: a bundle is told as resolved exactly where it is of the greatest set that resolves, unless its
/// manifest is faulty.
pub fn note_resolved()
    ensures { (cs : List Contents) (test : Bundle → Bool) → IsGreatest (bundles_of cs) test → All (λ c. is_resolved (bundle_line (filter test (bundles_of cs)) c) ≡ (not (is_faulty (wiring_in c)) && test (bundle_of c))) cs }
{}
