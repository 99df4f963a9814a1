//! How a run ends.
ghost use Rattle.std.specs.Prelude.{◌≡◌};
ghost use Rattle.script_shell.specs.Statuses.{code_of};

use turn_runner::SettleFault;

/// How a run ends.
#[derive(Clone, Copy, Debug, PartialEq, Eq)]
pub enum Status {
    /// The input was read to `quit` or to its end, or a load ran through.
    Done,
    /// The words are no form.
    Usage {
        /// The first word with which no form continues, or the number of words.
        at: u64,
    },
    /// The source failed.
    ReadFault,
    /// The sink failed.
    WriteFault,
    /// There was no memory.
    NoMemory,
    /// The journal has no room for a command, a get or a turn.
    JournalFull,
    /// A line has more than 1,048,576 bytes before its end.
    LineTooLong {
        /// Its number, from 1 on.
        line: u64,
    },
    /// As many turns ran as one settling may run, and one is still due.
    Unsettled,
    /// A line was refused, in a run that ends there.
    Refused {
        /// Its number, from 1 on.
        line: u64,
    },
}

impl Status {
    /// The number with which the program ends.
    pub fn code(&self) -> u8
        ensures { result ≡ code_of self.now }
    {
        match self {
            Status::Done => 0,
            Status::Usage { .. } => 1,
            Status::ReadFault => 2,
            Status::WriteFault => 3,
            Status::NoMemory => 4,
            Status::JournalFull => 5,
            Status::LineTooLong { .. } => 6,
            Status::Unsettled => 7,
            Status::Refused { .. } => 10,
        }
    }
}

impl From<SettleFault> for Status {
    ghost use Rattle.std.specs.Prelude.{◌≡◌};
    ghost use Rattle.script_shell.specs.Statuses.{status_of};

    ghost from_gives = { λ fault status. status ≡ status_of fault };

    fn from(fault: SettleFault) -> Status {
        match fault {
            SettleFault::Unsettled => Status::Unsettled,
            SettleFault::JournalFull => Status::JournalFull,
            SettleFault::OutOfMemory => Status::NoMemory,
        }
    }
}
