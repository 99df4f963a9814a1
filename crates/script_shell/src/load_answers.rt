//! How the replies of a load divide.
ghost use Rattle.script_shell.specs.LoadLines.{with_answer};
ghost use Rattle.std.specs.Prelude.{◌≡◌, ◌<◌, ◌≤◌};

/// How many lines ran, and how their replies divide.
#[derive(Clone, Copy, Debug, PartialEq, Eq)]
pub struct Answered {
    /// How many lines ran.
    pub lines: u64,
    /// How many of their replies aren't refusals.
    pub accepted: u64,
    /// How many are.
    pub refused: u64,
}

/// One line more, and whether its reply is a refusal, where it has one.
pub(crate) fn with_answer(answered: Answered, refused: Option<bool>) -> Answered
    requires lines { answered.lines < 200000 }
    requires accepted { answered.accepted ≤ answered.lines }
    requires refused { answered.refused ≤ answered.lines }
    ensures { result ≡ with_answer answered refused }
{
    let lines = answered.lines + 1;
    match refused {
        None => Answered { lines, ..answered },
        Some(true) => Answered {
            lines,
            refused: answered.refused + 1,
            ..answered
        },
        Some(false) => Answered {
            lines,
            accepted: answered.accepted + 1,
            ..answered
        },
    }
}
