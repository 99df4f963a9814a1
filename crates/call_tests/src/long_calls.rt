//! Calls that are as long as may be, and longer.

use crate::Insisting;
use crate::came::Came;
use crate::steps::{Step, hold};
use demonstration_kinds::Demonstration;

// An echo and 17 relays, each on the one before.
const CHAIN: &str = concat!(
    r#"{"location":"c","components":{"#,
    r#""e":{"name":"e","implementationClass":"demo.Echo","serviceInterfaces":["I0"]}"#,
    r#","r1":{"name":"r1","implementationClass":"demo.Relay","serviceInterfaces":["I1"],"#,
    r#""references":[{"name":"next","interfaceName":"I0"}]}"#,
    r#","r2":{"name":"r2","implementationClass":"demo.Relay","serviceInterfaces":["I2"],"#,
    r#""references":[{"name":"next","interfaceName":"I1"}]}"#,
    r#","r3":{"name":"r3","implementationClass":"demo.Relay","serviceInterfaces":["I3"],"#,
    r#""references":[{"name":"next","interfaceName":"I2"}]}"#,
    r#","r4":{"name":"r4","implementationClass":"demo.Relay","serviceInterfaces":["I4"],"#,
    r#""references":[{"name":"next","interfaceName":"I3"}]}"#,
    r#","r5":{"name":"r5","implementationClass":"demo.Relay","serviceInterfaces":["I5"],"#,
    r#""references":[{"name":"next","interfaceName":"I4"}]}"#,
    r#","r6":{"name":"r6","implementationClass":"demo.Relay","serviceInterfaces":["I6"],"#,
    r#""references":[{"name":"next","interfaceName":"I5"}]}"#,
    r#","r7":{"name":"r7","implementationClass":"demo.Relay","serviceInterfaces":["I7"],"#,
    r#""references":[{"name":"next","interfaceName":"I6"}]}"#,
    r#","r8":{"name":"r8","implementationClass":"demo.Relay","serviceInterfaces":["I8"],"#,
    r#""references":[{"name":"next","interfaceName":"I7"}]}"#,
    r#","r9":{"name":"r9","implementationClass":"demo.Relay","serviceInterfaces":["I9"],"#,
    r#""references":[{"name":"next","interfaceName":"I8"}]}"#,
    r#","r10":{"name":"r10","implementationClass":"demo.Relay","serviceInterfaces":["I10"],"#,
    r#""references":[{"name":"next","interfaceName":"I9"}]}"#,
    r#","r11":{"name":"r11","implementationClass":"demo.Relay","serviceInterfaces":["I11"],"#,
    r#""references":[{"name":"next","interfaceName":"I10"}]}"#,
    r#","r12":{"name":"r12","implementationClass":"demo.Relay","serviceInterfaces":["I12"],"#,
    r#""references":[{"name":"next","interfaceName":"I11"}]}"#,
    r#","r13":{"name":"r13","implementationClass":"demo.Relay","serviceInterfaces":["I13"],"#,
    r#""references":[{"name":"next","interfaceName":"I12"}]}"#,
    r#","r14":{"name":"r14","implementationClass":"demo.Relay","serviceInterfaces":["I14"],"#,
    r#""references":[{"name":"next","interfaceName":"I13"}]}"#,
    r#","r15":{"name":"r15","implementationClass":"demo.Relay","serviceInterfaces":["I15"],"#,
    r#""references":[{"name":"next","interfaceName":"I14"}]}"#,
    r#","r16":{"name":"r16","implementationClass":"demo.Relay","serviceInterfaces":["I16"],"#,
    r#""references":[{"name":"next","interfaceName":"I15"}]}"#,
    r#","r17":{"name":"r17","implementationClass":"demo.Relay","serviceInterfaces":["I17"],"#,
    r#""references":[{"name":"next","interfaceName":"I16"}]}"#,
    "}}"
);

const INSISTING: &str = concat!(
    r#"{"location":"i","components":"#,
    r#"{"i":{"implementationClass":"I","serviceInterfaces":["I"]}}}"#
);

// The sixteenth relay is asked, and the seventeenth.
const CHAINED: &[Step<'_>] = &[
    Step::Install(CHAIN),
    Step::Start(1),
    Step::Call {
        bundle: 1,
        service: 17,
        came: Came::Answered("<<<<<<<<<<<<<<<<hi>>>>>>>>>>>>>>>>"),
    },
    Step::Call {
        bundle: 1,
        service: 18,
        came: Came::TooLong(16),
    },
];

#[test]
fn sixteen_calls_may_wait_and_not_seventeen(rt: HostRuntime) {
    assert!(rt; hold(rt.alloc(), Demonstration, CHAINED));
}

const INSISTED: &[Step<'_>] = &[
    Step::Install(INSISTING),
    Step::Start(1),
    Step::Call {
        bundle: 1,
        service: 1,
        came: Came::TooLong(64),
    },
];

#[test]
fn sixty_four_nested_calls_may_be_made(rt: HostRuntime) {
    assert!(rt; hold(rt.alloc(), Insisting, INSISTED));
}
