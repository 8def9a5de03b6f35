//! Why a command did not do what it was asked.

ghost use Rattle.std.specs.Prelude.{◌≡◌};
ghost use Rattle.acd_program.specs.Statuses.{look_exit, opening_exit, archive_exit, fault_exit};

use crate::status::Exit;
use acd_files::{LookFault, OpeningFault, PathFault};
use acd_sessions::WorkFault;
use thiserror::Error;

/// Why an audit with an archive ended, once the desk was open.
#[derive(Clone, Copy, Debug, Error)]
pub(crate) enum ArchiveFault<'a> {
    /// The archive wasn't opened.
    #[error("{0}")]
    Opening(OpeningFault<'a>),
    #[error("{0}")]
    Work(WorkFault),
}

/// Why a command did not do what it was asked, as it is printed.
#[derive(Clone, Copy, Debug, Error)]
pub(crate) enum Fault<'a> {
    #[error("{0}")]
    Opening(OpeningFault<'a>),
    #[error("{0}")]
    Work(WorkFault),
    #[error("{0}")]
    Archive(ArchiveFault<'a>),
}

// A separate status says that another program has the file.
fn look_exit(fault: LookFault<'_>) -> Exit
    ensures { result ≡ look_exit fault.entry }
{
    match fault {
        LookFault::OpenElsewhere(_) => Exit::OpenElsewhere,
        LookFault::Path(_) => Exit::Failed,
        LookFault::NoBytes => Exit::Failed,
        LookFault::Plan(_) => Exit::Failed,
    }
}

fn opening_exit(fault: OpeningFault<'_>) -> Exit
    ensures { result ≡ opening_exit fault.entry }
{
    match fault {
        OpeningFault::Look(why) => look_exit(why),
        OpeningFault::Files(_) => Exit::Failed,
    }
}

impl<'a> ArchiveFault<'a> {
    fn exit(self) -> Exit
        ensures { result ≡ archive_exit self.entry }
    {
        match self {
            ArchiveFault::Opening(why) => opening_exit(why),
            ArchiveFault::Work(_) => Exit::Failed,
        }
    }
}

impl<'a> Fault<'a> {
    /// How a command ends by it.
    pub(crate) fn exit(self) -> Exit
        ensures { result ≡ fault_exit self.entry }
    {
        match self {
            Fault::Opening(why) => opening_exit(why),
            Fault::Work(_) => Exit::Failed,
            Fault::Archive(why) => why.exit(),
        }
    }
}

impl<'a> From<OpeningFault<'a>> for ArchiveFault<'a> {
    ghost use Rattle.std.specs.Prelude.{◌≡◌};
    ghost use Rattle.acd_program.specs.declared.fault.ArchiveFault.TheVariants.{Opening};

    ghost from_gives = { λ why fault. fault ≡ Opening why };

    fn from(fault: OpeningFault<'a>) -> ArchiveFault<'a> {
        ArchiveFault::Opening(fault)
    }
}

impl<'a> From<OpeningFault<'a>> for Fault<'a> {
    ghost use Rattle.std.specs.Prelude.{◌≡◌};
    ghost use Rattle.acd_program.specs.declared.fault.Fault.TheVariants.{Opening};

    ghost from_gives = { λ why fault. fault ≡ Opening why };

    fn from(fault: OpeningFault<'a>) -> Fault<'a> {
        Fault::Opening(fault)
    }
}

impl<'a> From<LookFault<'a>> for Fault<'a> {
    ghost use Rattle.std.specs.Prelude.{◌≡◌};
    ghost use Rattle.acd_program.specs.Faults.{of_look};

    ghost from_gives = { λ why fault. fault ≡ of_look why };

    fn from(fault: LookFault<'a>) -> Fault<'a> {
        Fault::Opening(OpeningFault::Look(fault))
    }
}

impl<'a> From<WorkFault> for Fault<'a> {
    ghost use Rattle.std.specs.Prelude.{◌≡◌};
    ghost use Rattle.acd_program.specs.declared.fault.Fault.TheVariants.{Work};

    ghost from_gives = { λ why fault. fault ≡ Work why };

    fn from(fault: WorkFault) -> Fault<'a> {
        Fault::Work(fault)
    }
}
