//! Requests' paths in contexts.
ghost use Rattle.std.specs.Prelude.{◌≡◌};
ghost use Rattle.wb_context.specs.ContextOrder.{covers, or_root, rest_in};

use wb_pattern::is_at_or_below;

/// Whether a request's path lies in the context of a path: that is `/` or equals it, or begins it before a slash. It takes
/// no memory.
pub fn covers(context_path: &[u8], path: &[u8]) -> bool
    ensures { result ≡ covers context_path.now path.now }
{
    context_path == b"/".as_slice() || is_at_or_below(context_path, path)
}

/// What is left of a request's path in a context that it lies in: all of it where the context's path is `/`, else what
/// follows that, and `/` where that is nothing. It takes no memory.
pub fn rest_in<'p>(context_path: &[u8], path: &'p [u8]) -> &'p [u8]
    ensures { result.now ≡ rest_in context_path.now path.now }
{
    if context_path == b"/".as_slice() {
        or_root(path)
    } else {
        or_root(path.get(context_path.len()..).unwrap_or(b""))
    }
}

fn or_root(rest: &[u8]) -> &[u8]
    ensures { result.now ≡ or_root rest.now }
{
    if rest.is_empty() { b"/" } else { rest }
}
