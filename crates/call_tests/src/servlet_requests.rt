//! Requests to servlets.

use crate::steps::{Step, hold};
use crate::told::Told;
use demonstration_kinds::Demonstration;

const SERVLET: &str = concat!(
    r#"{"location":"s","components":{"s":{"implementationClass":"demo.Echo","#,
    r#""serviceInterfaces":["javax.servlet.Servlet"],"#,
    r#""properties":{"osgi.http.whiteboard.servlet.pattern":"/s"}}}}"#
);

const NOWHERE: Told<'_> = Told {
    status: 404,
    service: 0,
    body: "",
};

// Before its bundle starts, then, while the bundle is stopping, and once it has stopped.
const THROUGH_ITS_LIFE: &[Step<'_>] = &[
    Step::Install(SERVLET),
    Step::Settle,
    Step::Ask(NOWHERE),
    Step::Start(1),
    Step::Settle,
    Step::Ask(Told {
        status: 200,
        service: 1,
        body: "POST /s?q\nabc",
    }),
    Step::Stop(1),
    Step::Ask(Told {
        status: 503,
        service: 0,
        body: "",
    }),
    Step::Settle,
    Step::Ask(NOWHERE),
];

#[test]
fn a_servlet_is_found_as_the_journal_grows(rt: HostRuntime) {
    assert!(rt; hold(rt.alloc(), Demonstration, THROUGH_ITS_LIFE));
}

const OF_A_COMMAND: &[Step<'_>] = &[
    Step::Install(r#"{"location":"d"}"#),
    Step::Start(1),
    Step::RegisterServlet(1),
    Step::Settle,
    Step::Ask(Told {
        status: 500,
        service: 0,
        body: "",
    }),
];

#[test]
fn a_servlet_of_a_command_has_no_object(rt: HostRuntime) {
    assert!(rt; hold(rt.alloc(), Demonstration, OF_A_COMMAND));
}
