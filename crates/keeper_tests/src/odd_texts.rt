//! Texts with quotes, a NUL and what a statement takes as a parameter.

use crate::changes::{Told, tells};
use crate::stories::{Story, holds_in_both};
use std::alloc::Global;
use world_keeper::{Keeper, Kept, KeptBundle, KeptConfiguration};

const ODD: &str = "'it''s' \"?1\" \0 ?1 é";

fn is_odd_bundle(bundle: &KeptBundle) -> bool {
    bundle.location.as_str() == ODD && bundle.document.as_str() == ODD
}

fn is_odd_configuration(configuration: &KeptConfiguration) -> bool {
    match &configuration.factory {
        Some(factory) => {
            factory.as_str() == ODD
                && configuration.pid.as_str() == ODD
                && configuration.properties.as_str() == ODD
        }
        None => false,
    }
}

// Whether the texts of one bundle and one configuration are just the odd text.
fn are_odd(kept: &Kept) -> bool {
    let [bundle] = kept.bundles.as_slice() else {
        return false;
    };
    let [configuration] = kept.configurations.as_slice() else {
        return false;
    };
    is_odd_bundle(bundle) && is_odd_configuration(configuration)
}

fn is_odd<K: Keeper>(keeper: &mut K) -> bool {
    match keeper.load() {
        Ok(kept) => are_odd(&kept),
        Err(_) => false,
    }
}

const CHANGES: &[Told<'_>] = &[
    Told::Install(ODD, ""),
    Told::Update(ODD, ODD),
    Told::ConfigureFactory(ODD, ODD, ODD),
];

/// Whether odd texts come back as they are.
pub(crate) fn come_back<K: Keeper>(alloc: Global, keeper: &mut K) -> bool {
    tells(alloc, keeper, CHANGES) && is_odd(keeper)
}

#[test]
fn odd_texts_come_back_as_they_are(rt: HostRuntime) {
    assert!(rt; holds_in_both(rt.alloc(), &Story::Odd));
}
