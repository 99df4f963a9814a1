//! Keys of properties, which are compared without ASCII case (OSGi Core 8, section 5.2.5).
ghost use Rattle.prop_map.specs.Keys.{key_order, same_key};
ghost use Rattle.std.specs.Prelude.{◌≡◌};

use std::cmp::Ordering;

/// The order of two keys: that of their bytes, ASCII capitals taken as their small letters.
pub(crate) fn key_order(a: &str, b: &str) -> Ordering
    ensures { result ≡ key_order a.now b.now }
{
    let folded = a.bytes().map(|byte| byte.to_ascii_lowercase());
    folded.cmp(b.bytes().map(|byte| byte.to_ascii_lowercase()))
}

/// Whether two texts spell one key.
pub(crate) fn is_same_key(a: &str, b: &str) -> bool
    ensures { result ≡ same_key a.now b.now }
{
    a.eq_ignore_ascii_case(b)
}
