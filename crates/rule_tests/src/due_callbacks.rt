//! Which callback is due.

use crate::samples::one;
use callback_orders::{
    DueRef, HeldService, InstanceView, Key, Phase, ReferenceView, Wish, due_of, first_due,
};
use prop_map::{List, OutOfMemory};
use std::alloc::Global;

const WISH: Wish = Wish {
    service: 2,
    ready: true,
};

const HELD: HeldService = HeldService {
    service: 1,
    changed: false,
};

// Service 2 is desired in place of service 1, which is held.
fn outdated_references(alloc: Global) -> Result<List<ReferenceView>, OutOfMemory> {
    let desired = one(alloc, WISH)?;
    let held = one(alloc, HELD)?;
    let reference = ReferenceView {
        told: false,
        desired,
        held,
    };
    one(alloc, reference)
}

// An active instance that desires so.
fn outdated(alloc: Global, instance: u64) -> Result<InstanceView, OutOfMemory> {
    Ok(InstanceView {
        instance,
        phase: Phase::Active,
        ending: false,
        outstanding: false,
        drained: false,
        unheld: true,
        stale: false,
        references: outdated_references(alloc)?,
    })
}

const BIND: DueRef = DueRef::Bind {
    instance: 4,
    reference: 0,
    service: 2,
};

fn binds_first(alloc: Global) -> bool {
    match outdated(alloc, 4) {
        Ok(view) => due_of(&view) == Some(BIND),
        Err(_) => false,
    }
}

#[test]
fn a_replacement_is_bound_first(rt: HostRuntime) {
    assert!(rt; binds_first(rt.alloc()));
}

const KEY: Key = Key {
    configuration: 5,
    consumer: 0,
};

#[test]
fn a_wanted_instance_is_created(rt: HostRuntime) {
    assert!(rt; first_due(&[], &[KEY]) == Some(DueRef::Create { key: KEY }));
}
