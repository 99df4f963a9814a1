//! New platforms, and what is done on one.
ghost use Rattle.platform_hall.specs.Cores.{AreWithinGreatest};

use crate::loads::{Loading, loads};
use crate::runs::{Script, runs};
use crate::turns::{leaves_no_turn, settles, settles_behind_a_turn, turns_by_hand};
use kind_trait::Kinds;
use scr_world::Limits;
use script_shell::Platform;
use std::alloc::Global;

pub(crate) const LIMITS: Limits = Limits {
    journal: 100,
    turns: 100,
};

/// What is done on a new platform, with what it comes to.
#[derive(Clone, Copy)]
pub(crate) enum Deed<'d> {
    /// A script is run.
    Run(&'d Script<'d>),
    /// A load is run.
    Load(&'d Loading<'d>),
    /// A consumer and its provider are started, and the first due turn is run by hand.
    Turn,
    /// The same, and then so many turns run.
    TurnAndSettling { turns: u64, journal: u64 },
    /// A consumer and its provider are started, and then so many turns run.
    Settling { turns: u64 },
    /// The same, where memory may be wanting once, also for what comes before.
    SettlingAtLast,
}

// Whether what is done comes to what it is to.
fn comes_true<K: Kinds + Drop>(alloc: Global, platform: &mut Platform<K>, deed: &Deed<'_>) -> bool {
    match deed {
        Deed::Run(script) => runs(alloc, platform, script),
        Deed::Load(load) => loads(alloc, platform, load),
        Deed::Turn => turns_by_hand(alloc, platform),
        Deed::TurnAndSettling { turns, journal } => {
            settles_behind_a_turn(alloc, platform, *turns, *journal)
        }
        Deed::Settling { turns } => settles(alloc, platform, *turns),
        Deed::SettlingAtLast => leaves_no_turn(alloc, platform),
    }
}

// The same on a new platform. No other function owns one.
pub(crate) fn holds<K: Kinds + Drop>(
    alloc: Global,
    kinds: K,
    limits: Limits,
    deed: &Deed<'_>,
) -> bool
    requires { AreWithinGreatest limits }
{
    match Platform::new(alloc, kinds, limits) {
        Ok(mut platform) => comes_true(alloc, &mut platform, deed),
        Err(_) => matches!(deed, Deed::SettlingAtLast),
    }
}
