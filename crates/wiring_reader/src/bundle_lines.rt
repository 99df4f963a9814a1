//! The wiring of one bundle (OSGi Core 8, chapter 3 "Module Layer", "Resolving Process").
ghost use Rattle.bundle_wiring.specs.ByNeed.{wired_of};
ghost use Rattle.kept_wirings.specs.DocumentWirings.{part_of, wiring_in};
ghost use Rattle.kept_wirings.specs.KeptRows.{AreKept};
ghost use Rattle.scr_world.specs.declared.contents.Contents.{Contents};
ghost use Rattle.std.specs.Prelude.{◌≡◌, ◌==◌, ◌<◌, ◌++◌, [], ◌∷◌, List, length, map, position, slice_index_or, IfOk, OnOk};
ghost use Rattle.wiring_reader.specs.Lines.{need_line_of};
ghost use Rattle.wiring_reader.specs.Parts.{bundles_of};
ghost use Rattle.wiring_reader.specs.Telling.{TellsBundle, TellsNeeds, TellsPart, offer_line, unwired_line};
ghost use Rattle.wiring_reader.specs.declared.wiring_line.NeedLine.TheVariants.{Fault};

use crate::NeedLine;
use bundle_wiring::{Offer, WireFault, WireNeed, WiredNeed, Wiring, wire_needs};
use kept_wirings::{KeptWirings, wirings_of};
use prop_map::{Copies, List, OutOfMemory};
use scr_world::Contents;
use std::alloc::Global;

/// The wiring of the bundle of a number, among the bundles with these documents: for each of its needs to whom it is
/// wired, or would be if the bundle resolved, or that it has no candidate; then each of its offers. Where its manifest
/// is faulty, the first fault alone. `None` exactly where there is no such bundle. The manifests are read anew.
///
/// # Errors
/// Only want of memory.
pub fn bundle_wiring(
    alloc: Global,
    documents: &[Contents],
    bundle: u64,
) -> Result<Option<List<NeedLine>>, OutOfMemory>
    ensures { IfOk result (λ told. TellsBundle documents.now bundle told) }
{
    let kept = wirings_of(alloc, documents)?;
    kept_bundle_wiring(alloc, documents, &kept, bundle)
}

/// The same where this is kept of what the manifests say. None of them is read.
///
/// # Errors
/// Only want of memory.
pub fn kept_bundle_wiring(
    alloc: Global,
    documents: &[Contents],
    kept: &KeptWirings,
    bundle: u64,
) -> Result<Option<List<NeedLine>>, OutOfMemory>
    requires { AreKept documents.now kept.now }
    ensures { IfOk result (λ told. TellsBundle documents.now bundle told) }
{
    match place_of(documents, bundle) {
        Some(place) => Ok(Some(lines_at(alloc, kept, place)?)),
        None => Ok(None),
    }
}

fn place_of(documents: &[Contents], bundle: u64) -> Option<usize>
    ensures { result ≡ position (λ (c : Contents). c.bundle == bundle) documents.now }
{
    documents
        .iter()
        .position(|contents| contents.bundle == bundle)
}

fn lines_at(alloc: Global, kept: &KeptWirings, place: usize) -> Result<List<NeedLine>, OutOfMemory>
    requires bundles { place < length kept.now.bundles.items }
    requires faults { place < length kept.now.faults.items }
    ensures { IfOk result (λ lines. (cs : List Contents) (c : Contents) → AreKept cs kept.now → TellsNeeds cs (wiring_in (slice_index_or cs place c)) lines) }
{
    match &kept.faults[place] {
        Some(fault) => fault_line(alloc, fault),
        None => part_lines(alloc, kept.bundles.as_slice(), place),
    }
}

// A faulty manifest's first fault.
fn fault_line(alloc: Global, fault: &WireFault) -> Result<List<NeedLine>, OutOfMemory>
    ensures { IfOk result (λ lines. lines ≡ Fault fault.now ∷ []) }
{
    let fault = copy_of(alloc, fault)?;
    let mut lines = Vec::new(alloc);
    lines.push(NeedLine::Fault { fault })?;
    Ok(List::of(lines))
}

fn copy_of(alloc: Global, fault: &WireFault) -> Result<WireFault, OutOfMemory>
    ensures { IfOk result (λ copy. copy ≡ fault.now) }
{
    match fault {
        WireFault::BadClause { at } => Ok(WireFault::BadClause { at: *at }),
        WireFault::BadVersion { at } => Ok(WireFault::BadVersion { at: *at }),
        WireFault::BadFilter { at } => Ok(WireFault::BadFilter { at: *at }),
        WireFault::DuplicateImport { package } => Ok(WireFault::DuplicateImport {
            package: package.copy(alloc)?,
        }),
        WireFault::OutOfMemory => Ok(WireFault::OutOfMemory),
    }
}

// The needs and the offers of the part that the bundle at a place takes.
fn part_lines(
    alloc: Global,
    bundles: &[(u64, Wiring)],
    place: usize,
) -> Result<List<NeedLine>, OutOfMemory>
    requires { place < length bundles.now }
    ensures { IfOk result (λ lines. (cs : List Contents) (c : Contents) → bundles.now ≡ bundles_of cs → TellsPart cs (part_of (wiring_in (slice_index_or cs place c))) lines) }
{
    let wired = wire_needs(alloc, bundles)?;
    let rows = wired.as_slice();
    let lines = lines_of(
        alloc,
        rows[place].as_slice(),
        bundles[place].1.offers.as_slice(),
    )?;
    Ok(List::of(lines))
}

fn lines_of(
    alloc: Global,
    needs: &[WiredNeed],
    offers: &[Offer],
) -> Result<Vec<NeedLine>, OutOfMemory>
    ensures { IfOk result (λ lines. lines.items ≡ map need_line_of (map wired_of needs.now) ++ map offer_line offers.now) }
{
    let mut lines = Vec::new(alloc);
    push_needs(alloc, &mut lines, needs)?;
    push_offers(alloc, &mut lines, offers)?;
    Ok(lines)
}

fn push_needs(
    alloc: Global,
    lines: &mut Vec<NeedLine>,
    needs: &[WiredNeed],
) -> Result<(), OutOfMemory>
    ensures { OnOk result (lines.new.items ≡ lines.old.items ++ map need_line_of (map wired_of needs.now)) }
{
    for wired in needs {
        lines.push(need_line(alloc, wired)?)?;
    }
    Ok(())
}

fn need_line(alloc: Global, wired: &WiredNeed) -> Result<NeedLine, OutOfMemory>
    ensures { IfOk result (λ line. line ≡ need_line_of (wired_of wired.now)) }
{
    match wired.to {
        Some(to) => Ok(NeedLine::Wire {
            need: wired.need.name.copy(alloc)?,
            to,
        }),
        None => unwired_line(alloc, wired.need),
    }
}

fn unwired_line(alloc: Global, need: &WireNeed) -> Result<NeedLine, OutOfMemory>
    ensures { IfOk result (λ line. line ≡ unwired_line need.now) }
{
    let name = need.name.copy(alloc)?;
    if need.optional {
        Ok(NeedLine::Optional { need: name })
    } else {
        Ok(NeedLine::Missing { need: name })
    }
}

fn push_offers(
    alloc: Global,
    lines: &mut Vec<NeedLine>,
    offers: &[Offer],
) -> Result<(), OutOfMemory>
    ensures { OnOk result (lines.new.items ≡ lines.old.items ++ map offer_line offers.now) }
{
    for offer in offers {
        lines.push(offer_line(alloc, offer)?)?;
    }
    Ok(())
}

fn offer_line(alloc: Global, offer: &Offer) -> Result<NeedLine, OutOfMemory>
    ensures { IfOk result (λ line. line ≡ offer_line offer.now) }
{
    Ok(NeedLine::Offers {
        name: offer.name.copy(alloc)?,
        version: offer.version.get().copy(alloc)?,
    })
}
