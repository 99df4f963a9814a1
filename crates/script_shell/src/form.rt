//! The forms of a run, and the texts that words ask for in place of one.

/// What a script is asked for behind its first word.
#[derive(Clone, Copy, Debug, PartialEq, Eq)]
pub struct ScriptOptions {
    /// Turns run where a line asks for it alone.
    pub manual: bool,
    /// Each line is written before its reply.
    pub echo: bool,
    /// The first line that is refused ends the run.
    pub strict: bool,
    /// Who is told of the run says of each refusal what it means.
    pub explain: bool,
}

impl ScriptOptions {
    /// None of them.
    pub const NONE: ScriptOptions = ScriptOptions {
        manual: false,
        echo: false,
        strict: false,
        explain: false,
    };
}

/// The numbers of a load.
#[derive(Clone, Copy, Debug, PartialEq, Eq)]
pub struct LoadNumbers {
    /// What its draws begin with.
    pub seed: u64,
    /// How many bundles it installs and starts, 1 to 100.
    pub bundles: u64,
    /// How many commands come behind them, 0 to 100,000.
    pub commands: u64,
}

/// A form of a run.
#[derive(Clone, Copy, Debug, PartialEq, Eq)]
pub enum Form {
    /// `script` with options.
    Script(ScriptOptions),
    /// `load SEED BUNDLES COMMANDS`.
    Load(LoadNumbers),
}

/// A text that the words ask for in place of a run.
#[derive(Clone, Copy, Debug, PartialEq, Eq)]
pub enum AskedText {
    /// What the program is, and its forms.
    Program,
    /// What `script` is, and its options.
    Script,
    /// What `load` is, and its numbers.
    Load,
    /// Which version of the program this is.
    Version,
}
