//! Which lines are handed on with a file's bytes.

use crate::readings::{Reading, holds};

const LINES: &[u8] =
    b"install @a b.json\r\nbundles\nupdate 7 @two\nregister 1 X @two\nupdate x @two\n install @two\nINSTALL @two\ninstall  @two\ninstall @none\nupdate 18446744073709551616 @two\n\nupdate 0 @two";

const HANDED: &[u8] =
    b"install {\"a\": 1 }\nbundles\nupdate 7 @  t w o \nregister 1 X @two\nupdate x @two\n install @two\nINSTALL @two\ninstall  @two\ninstall @none\nupdate 18446744073709551616 @two\n\nupdate 0 @  t w o ";

const DOCUMENTS: Reading<'_> = Reading {
    lines: LINES,
    files: &[
        ("a b.json", b"{\"a\":\n1\n}"),
        ("two", b"@\r\nt w o\n"),
        ("two", b"another"),
    ],
    failing: &[],
    reads: 1000,
    handed: HANDED,
    faults: 0,
};

#[test]
fn documents_alone_are_read_of_files(rt: HostRuntime) {
    assert!(rt; holds(rt.alloc(), &DOCUMENTS));
}

const FAILING: Reading<'_> = Reading {
    lines: b"install @x\ninstall @x",
    files: &[("x", b"{}")],
    failing: &[0, 2, 7],
    reads: 1000,
    handed: b"install {}\ninstall {}",
    faults: 3,
};

#[test]
fn nothing_is_lost_where_reads_fail(rt: HostRuntime) {
    assert!(rt; holds(rt.alloc(), &FAILING));
}
