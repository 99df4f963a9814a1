//! Calls of the demonstration's component code.

use crate::came::Came;
use crate::steps::{Step, hold};
use demonstration_kinds::Demonstration;

const GREETER: &str = concat!(
    r#"{"location":"g","components":"#,
    r#"{"g":{"implementationClass":"com.acme.GreeterImpl","serviceInterfaces":["G"]}}}"#
);

const ECHO: &str = concat!(
    r#"{"location":"p","components":"#,
    r#"{"p":{"implementationClass":"demo.Echo","serviceInterfaces":["P"]}}}"#
);

const RELAY: &str = concat!(
    r#"{"location":"r","components":{"r":{"implementationClass":"demo.Relay","serviceInterfaces":["R"],"#,
    r#""references":[{"name":"next","interfaceName":"P","cardinality":"0..1","policy":"dynamic"}]}}}"#
);

const FAILING: &str = concat!(
    r#"{"location":"f","components":{"f":{"implementationClass":"demo.Echo","serviceInterfaces":["P"],"#,
    r#""properties":{"refuse":"activate"}}}}"#
);

const REFUSING: &str = concat!(
    r#"{"location":"f","components":{"f":{"implementationClass":"demo.Echo","serviceInterfaces":["P"],"#,
    r#""properties":{"refuse":"call"}}}}"#
);

const GREETED: &[Step<'_>] = &[
    Step::Install(GREETER),
    Step::Start(1),
    Step::Call {
        bundle: 1,
        service: 1,
        came: Came::Answered(""),
    },
    Step::Call {
        bundle: 1,
        service: 1,
        came: Came::Answered(""),
    },
];

#[test]
fn a_component_without_a_text_answers_the_empty_one(rt: HostRuntime) {
    assert!(rt; hold(rt.alloc(), Demonstration, GREETED));
}

// With the service that it asks next, and once that is gone.
const RELAYED: &[Step<'_>] = &[
    Step::Install(ECHO),
    Step::Install(RELAY),
    Step::Start(1),
    Step::Start(2),
    Step::Call {
        bundle: 2,
        service: 2,
        came: Came::Answered("<hi>"),
    },
    Step::Stop(1),
    Step::Call {
        bundle: 2,
        service: 2,
        came: Came::Answered("no-service"),
    },
];

#[test]
fn a_relay_asks_the_service_that_it_holds(rt: HostRuntime) {
    assert!(rt; hold(rt.alloc(), Demonstration, RELAYED));
}

const FAILED: &[Step<'_>] = &[
    Step::Install(FAILING),
    Step::Start(1),
    Step::Call {
        bundle: 1,
        service: 1,
        came: Came::Gone,
    },
    Step::Call {
        bundle: 1,
        service: 1,
        came: Came::Core,
    },
];

#[test]
fn a_get_is_gone_where_the_activation_fails(rt: HostRuntime) {
    assert!(rt; hold(rt.alloc(), Demonstration, FAILED));
}

const REFUSED: &[Step<'_>] = &[
    Step::Install(REFUSING),
    Step::Start(1),
    Step::Call {
        bundle: 1,
        service: 1,
        came: Came::Refused,
    },
    Step::Call {
        bundle: 1,
        service: 1,
        came: Came::Refused,
    },
];

#[test]
fn component_code_refuses_a_request(rt: HostRuntime) {
    assert!(rt; hold(rt.alloc(), Demonstration, REFUSED));
}

const REGISTERED: &[Step<'_>] = &[
    Step::Install(r#"{"location":"d"}"#),
    Step::Start(1),
    Step::Register(1),
    Step::Call {
        bundle: 1,
        service: 1,
        came: Came::NoObject,
    },
    Step::Call {
        bundle: 1,
        service: 1,
        came: Came::NoObject,
    },
];

#[test]
fn a_service_of_a_command_has_no_object(rt: HostRuntime) {
    assert!(rt; hold(rt.alloc(), Demonstration, REGISTERED));
}
