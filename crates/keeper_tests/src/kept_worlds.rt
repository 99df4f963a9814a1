//! What is kept, and the commands that make it again.

use crate::changes::{C, P, Told};
use crate::stories::{Story, holds_in_both};

// P and C are installed and started, P is configured, and C is stopped.
const BOTH_RUN: Story<'_> = Story::Changed {
    changes: &[
        Told::Install("p", P),
        Told::Install("c", C),
        Told::Start("p"),
        Told::Start("c"),
        Told::Configure("p", r#"{"v":1}"#),
        Told::Stop("c"),
    ],
    shown: "p started {\"location\":\"p\"}\n\
            c stopped {\"location\":\"c\"}\n\
            p of none {\"v\":1}\n\
            configure p 1\n\
            install p\n\
            install c\n\
            start 1\n",
};

#[test]
fn a_started_bundle_starts_again(rt: HostRuntime) {
    assert!(rt; holds_in_both(rt.alloc(), &BOTH_RUN));
}

// The same, and P is removed and installed again.
const INSTALLED_AGAIN: Story<'_> = Story::Changed {
    changes: &[
        Told::Install("p", P),
        Told::Install("c", C),
        Told::Start("p"),
        Told::Start("c"),
        Told::Configure("p", r#"{"v":1}"#),
        Told::Stop("c"),
        Told::Remove("p"),
        Told::Install("p", P),
    ],
    shown: "c stopped {\"location\":\"c\"}\n\
            p stopped {\"location\":\"p\"}\n\
            p of none {\"v\":1}\n\
            configure p 1\n\
            install c\n\
            install p\n",
};

#[test]
fn a_removed_bundle_has_no_mark(rt: HostRuntime) {
    assert!(rt; holds_in_both(rt.alloc(), &INSTALLED_AGAIN));
}

const BAD_DOCUMENT: Story<'_> = Story::Changed {
    changes: &[
        Told::Install("p", r#"{"location":""}"#),
        Told::Configure("p", r#"{"v":1}"#),
    ],
    shown: "p stopped {\"location\":\"\"}\n\
            p of none {\"v\":1}\n\
            the kept row \
            1 has no reading\n",
};

#[test]
fn a_bad_document_is_told_behind_the_configurations(rt: HostRuntime) {
    assert!(rt; holds_in_both(rt.alloc(), &BAD_DOCUMENT));
}

const BAD_PROPERTIES: Story<'_> = Story::Changed {
    changes: &[
        Told::Configure("q", r#"{"v":1}"#),
        Told::Configure("p", "{"),
    ],
    shown: "p of none {\n\
            q of none {\"v\":1}\n\
            the kept row \
            0 has no reading\n",
};

#[test]
fn bad_properties_are_told_by_their_row(rt: HostRuntime) {
    assert!(rt; holds_in_both(rt.alloc(), &BAD_PROPERTIES));
}

const NAMED: Story<'_> = Story::Changed {
    changes: &[
        Told::Install("l", "{}"),
        Told::Update("l", C),
        Told::Configure("q", "{}"),
        Told::ConfigureFactory("f", "f~n", r#"{"v":2}"#),
        Told::Unconfigure("q"),
    ],
    shown: "l stopped {\"location\":\"c\"}\n\
            f~n of f {\"v\":2}\n\
            configure f n 2\n\
            install l\n",
};

#[test]
fn a_bundle_is_installed_at_its_kept_location(rt: HostRuntime) {
    assert!(rt; holds_in_both(rt.alloc(), &NAMED));
}
