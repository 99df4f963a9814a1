//! What the lines `wiring` ask.
ghost use Rattle.script_shell.specs.Wiring.{AsksBundleWiring, AsksWiring, CarriesWiring, bundle_reply};
ghost use Rattle.std.specs.Prelude.{◌≡◌};

use prop_map::List;
use scr_report::Core;
use scr_world::CoreFault;
use shell_lang::{Refusal, ShellReply};
use std::alloc::Global;
use turn_runner::SettleFault;
use wiring_reader::{NeedLine, kept_bundle_wiring, kept_wiring_lines};

// The wiring of all bundles.
pub(crate) fn wiring(alloc: Global, core: &Core) -> Result<ShellReply, SettleFault>
    ensures { CarriesWiring AsksWiring core.now result }
{
    let lines = kept_wiring_lines(alloc, core.documents(), core.wirings())?;
    Ok(ShellReply::Wiring(lines))
}

// The wiring of one bundle.
pub(crate) fn bundle_wiring(
    alloc: Global,
    core: &Core,
    bundle: u64,
) -> Result<ShellReply, SettleFault>
    ensures { CarriesWiring (AsksBundleWiring bundle) core.now result }
{
    let told = kept_bundle_wiring(alloc, core.documents(), core.wirings(), bundle)?;
    Ok(bundle_reply(bundle, told))
}

// The wiring of a bundle, where there is one of this number.
fn bundle_reply(bundle: u64, told: Option<List<NeedLine>>) -> ShellReply
    ensures { result ≡ bundle_reply bundle told }
{
    match told {
        Some(lines) => ShellReply::BundleWiring(lines),
        None => ShellReply::Refused(Refusal::Core {
            fault: CoreFault::NoBundle { bundle },
        }),
    }
}
