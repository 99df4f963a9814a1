//! One get more, and one less.
ghost use Rattle.std.specs.Prelude.{◌≡◌, ◌<◌, ◌+◌, ◌^◌};
ghost use Rattle.use_counts.specs.Uses.{held_by, no_use, one_less, one_more, total};

use crate::{Holder, UseRow};

/// A bundle that doesn't use a service yet.
pub(crate) fn no_use(bundle: u64, service: u64) -> UseRow
    ensures { result ≡ no_use bundle service }
{
    UseRow {
        service,
        bundle,
        shell: 0,
        tokens: 0,
    }
}

/// How many gets a row counts.
pub(crate) fn total(row: &UseRow) -> u32
    requires { total row.now < 2 ^ 32 }
    ensures { result ≡ total row.now }
{
    row.shell + row.tokens
}

/// How many gets a holder has.
pub(crate) fn held_by(holder: Holder, row: &UseRow) -> u32
    ensures { result ≡ held_by holder row.now }
{
    match holder {
        Holder::Shell => row.shell,
        Holder::Token => row.tokens,
    }
}

/// The row with one get more.
pub(crate) fn one_more(holder: Holder, row: &UseRow) -> UseRow
    requires { total row.now + 1 < 2 ^ 32 }
    ensures { result ≡ one_more holder row.now }
{
    match holder {
        Holder::Shell => UseRow {
            shell: row.shell + 1,
            ..*row
        },
        Holder::Token => UseRow {
            tokens: row.tokens + 1,
            ..*row
        },
    }
}

/// The row with one get less.
pub(crate) fn one_less(holder: Holder, row: &UseRow) -> UseRow
    requires { 0 < held_by holder row.now }
    ensures { result ≡ one_less holder row.now }
{
    match holder {
        Holder::Shell => UseRow {
            shell: row.shell - 1,
            ..*row
        },
        Holder::Token => UseRow {
            tokens: row.tokens - 1,
            ..*row
        },
    }
}
