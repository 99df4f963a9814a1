//! PIDs (OSGi Compendium 8, chapter 104, "The Persistent Identity").
ghost use Rattle.config_admin.specs.Configurations.{factory_pid};
ghost use Rattle.config_admin.specs.Refusals.{is_pid, is_pid_byte};
ghost use Rattle.std.specs.List.{list_all};
ghost use Rattle.std.specs.Prelude.{◌≡◌, ◌∷◌, IfOk};
ghost use Rattle.std.specs.Str.{bytes_eq};

use prop_map::{OutOfMemory, Str};
use std::alloc::Global;

/// Whether a text is a PID or a name: one or more letters, digits, `.`, `_` and `-`.
pub(crate) fn is_pid(text: &str) -> bool
    ensures { result ≡ is_pid text.now }
{
    if text.is_empty() {
        return false;
    }
    are_pid_bytes(text.as_bytes())
}

fn are_pid_bytes(bytes: &[u8]) -> bool
    ensures { result ≡ list_all is_pid_byte bytes.now }
{
    bytes.iter().all(|byte| is_pid_byte(*byte))
}

fn is_pid_byte(byte: u8) -> bool
    ensures { result ≡ is_pid_byte byte }
{
    byte.is_ascii_alphanumeric() || byte == b'.' || byte == b'_' || byte == b'-'
}

/// Whether a text is the PID of a factory's configuration with a name. It takes no memory.
pub(crate) fn is_factory_pid(text: &str, factory: &str, name: &str) -> bool
    ensures { result ≡ bytes_eq text.now (factory_pid factory.now name.now) }
{
    match text.as_bytes().strip_prefix(factory.as_bytes()) {
        Some(behind) => is_name(behind, name.as_bytes()),
        None => false,
    }
}

// Whether bytes are `~` and a name.
fn is_name(bytes: &[u8], name: &[u8]) -> bool
    ensures { result ≡ bytes_eq bytes.now (126 ∷ name.now) }
{
    match bytes.split_first() {
        Some((first, rest)) => *first == b'~' && rest == name,
        None => false,
    }
}

/// The PID of a factory's configuration with a name.
pub(crate) fn factory_pid(alloc: Global, factory: &str, name: &str) -> Result<Str, OutOfMemory>
    ensures { IfOk result (λ pid. pid ≡ factory_pid factory.now name.now) }
{
    let mut pid = String::from_str(alloc, factory)?;
    pid.push_str("~")?;
    pid.push_str(name)?;
    Ok(Str::of(pid))
}
