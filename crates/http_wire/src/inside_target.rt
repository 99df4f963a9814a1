//! Whether bytes end inside a request target.
ghost use Rattle.std.specs.Prelude.{◌≡◌, ◌<◌, ◌↔◌, IsTrue, IfSome, IfNone, length};
ghost use Rattle.std.specs.List.{list_all};
ghost use Rattle.http_wire.specs.Heads.{EndsInside, is_target_byte};
ghost use Rattle.http_wire.specs.InsideTarget.{is_target_front, is_inside, is_inside_line, is_inside_rest};

use httparse::is_method_token;

fn is_target_byte(byte: u8) -> bool
    ensures { result ≡ is_target_byte byte }
{
    byte != b' ' && byte != b'\r' && byte != b'\n'
}

// Whether bytes behind the method's first byte end inside the target.
fn is_inside_rest(mut rest: &[u8]) -> bool
    ensures { result ≡ is_inside_rest rest.now }
{
    while let [first, after @ ..] = rest {
        if *first == b' ' {
            return is_target_front(after);
        }
        if !is_method_token(*first) {
            return false;
        }
        rest = after;
    }
    false
}

fn is_target_front(bytes: &[u8]) -> bool
    ensures { result ≡ is_target_front bytes.now }
{
    !bytes.is_empty() && are_target_bytes(bytes)
}

fn are_target_bytes(bytes: &[u8]) -> bool
    ensures { result ≡ list_all is_target_byte bytes.now }
{
    bytes.iter().all(|byte| is_target_byte(*byte))
}

// The bytes behind an empty line, if they begin with one.
fn after_empty_line(bytes: &[u8]) -> Option<&[u8]>
    ensures none { IfNone result (is_inside bytes.now ≡ is_inside_line bytes.now) }
    ensures some { IfSome result (λ after. (is_inside after.now ≡ is_inside bytes.now) × (length after.now < length bytes.now)) }
{
    match bytes {
        [b'\n', after @ ..] => Some(after),
        [b'\r', b'\n', after @ ..] => Some(after),
        _ => None,
    }
}

fn is_inside_line(bytes: &[u8]) -> bool
    ensures { result ≡ is_inside_line bytes.now }
{
    match bytes {
        [first, after @ ..] => is_method_token(*first) && is_inside_rest(after),
        [] => false,
    }
}

/// Whether the bytes end inside a target: there are empty lines or none, a token, a blank, and then no blank, CR or LF.
pub(crate) fn ends_inside(bytes: &[u8]) -> bool
    ensures { IsTrue result ↔ EndsInside bytes.now }
{
    let mut rest = bytes;
    while let Some(after) = after_empty_line(rest) {
        rest = after;
    }
    is_inside_line(rest)
}
