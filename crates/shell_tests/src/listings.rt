//! Lines that tell what is there.

use crate::platforms::{Deed, LIMITS, holds};
use crate::runs::{Front, Script, Wanted};
use demonstration_kinds::Demonstration;

const LINES: &str =
    "install {\"location\":\"p\"}\nstart 1\nconfig A {\"v\":1}\nlisten 1 (v=1)\nconfigs\nconfiguration A\nconfiguration B\nlisteners\njournal\n";

const REPLIES: &[u8] =
    b"ok bundle 1\nok\nok\nok listener 1\nok 1\nA - -\nok {\"service.pid\":\"A\",\"v\":1}\nrefused NoConfiguration\nok 1\n1 1 0\nok 4 0 100\n";

const SCRIPT: Script<'_> = Script {
    words: &["script"],
    lines: LINES,
    replies: REPLIES,
    reads: &[],
    writes: &[],
    is_told: false,
    wanted: Wanted::Code(0),
    front: Front::Bytes(118),
};

#[test]
fn what_is_there_is_told(rt: HostRuntime) {
    assert!(rt; holds(rt.alloc(), Demonstration, LIMITS, &Deed::Run(&SCRIPT)));
}
