//! Who is told of the reply of a line.
ghost use Rattle.script_shell.specs.LineTexts.{is_told_refusal};
ghost use Rattle.std.specs.Prelude.{◌≡◌, ◌&&◌};

use crate::Tells;
use crate::load_line::is_refusal;
use shell_lang::ShellReply;

/// Tells of a line's reply, where it has one, and answers whether it is a refusal that ends the run, which may be strict.
pub(crate) fn tell_reply<T: Tells>(
    told: &mut T,
    strict: bool,
    line: u64,
    text: &[u8],
    reply: &Option<ShellReply>,
) -> bool
    ensures { result ≡ (strict && is_told_refusal reply.now) }
{
    if let Some(reply) = reply {
        if is_refusal(reply) {
            told.refused(line, text, reply);
        } else {
            told.answered(line, text);
        }
    }
    strict && is_told_refusal(reply)
}

// Whether there is a reply, and it is a refusal.
fn is_told_refusal(reply: &Option<ShellReply>) -> bool
    ensures { result ≡ is_told_refusal reply.now }
{
    match reply {
        None => false,
        Some(reply) => is_refusal(reply),
    }
}
