//! The exit status of a command.

ghost use Rattle.std.specs.Prelude.{◌≡◌};
ghost use Rattle.acd_program.specs.Statuses.{status_number, exit_number};

/// How a task ended that no fault ended.
#[derive(Clone, Copy, Debug, PartialEq, Eq)]
pub(crate) enum Status {
    Success,
    /// An audit found a difference.
    Differs,
    /// An audit found the desk sound, and its log damaged.
    EndsEarly,
    /// An audit with the archive found the desk sound, but that requests were sent again.
    SentAgain,
}

/// How a command ended.
#[derive(Clone, Copy, Debug, PartialEq, Eq)]
pub(crate) enum Exit {
    /// So its task did.
    Done(Status),
    /// By a fault.
    Failed,
    /// The command line was refused.
    Refused,
    /// By a fault: another program has the file.
    OpenElsewhere,
}

impl Status {
    pub(crate) fn number(self) -> u8
        ensures { result ≡ status_number self }
    {
        match self {
            Status::Success => 0,
            Status::Differs => 3,
            Status::EndsEarly => 5,
            Status::SentAgain => 6,
        }
    }
}

impl Exit {
    /// The number that the process ends with.
    pub(crate) fn number(self) -> u8
        ensures { result ≡ exit_number self }
    {
        match self {
            Exit::Done(status) => status.number(),
            Exit::Failed => 1,
            Exit::Refused => 2,
            Exit::OpenElsewhere => 4,
        }
    }
}
