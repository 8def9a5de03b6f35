//! Why a file was not opened.

use acd_reports::PlanFault;
use std::alloc::AllocError;
use thiserror::Error;

/// Why what is at a path can't be had.
#[derive(Clone, Copy, Debug, Error)]
pub enum PathFault<'a> {
    /// It is not there, can't be read, or is no database.
    #[error("cannot open {0}")]
    CannotOpen(&'a str),
    #[error("no memory")]
    NoMemory,
}

/// Why no file of a desk was opened.
#[derive(Clone, Copy, Debug, Error)]
pub enum LookFault<'a> {
    #[error("{0}")]
    Path(PathFault<'a>),
    /// The file at this path is open in another program, or once more in this one.
    #[error("{0} is open elsewhere")]
    OpenElsewhere(&'a str),
    /// The file has no bytes, and no desk is to be made in it.
    #[error("wrong version 0")]
    NoBytes,
    #[error("{0}")]
    Plan(PlanFault),
}

/// Why there is no connection to the file of a desk.
#[derive(Clone, Copy, Debug, Error)]
pub enum OpeningFault<'a> {
    /// No file was opened.
    #[error("{0}")]
    Look(LookFault<'a>),
    /// Files were opened, and the store made no connection to them.
    #[error("{0}")]
    Files(PathFault<'a>),
}

impl<'a> From<PathFault<'a>> for LookFault<'a> {
    ghost use Rattle.std.specs.Prelude.{◌≡◌};
    ghost use Rattle.acd_files.specs.declared.fault.LookFault.TheVariants.{Path};

    ghost from_gives = { λ why fault. fault ≡ Path why };

    fn from(fault: PathFault<'a>) -> LookFault<'a> {
        LookFault::Path(fault)
    }
}

impl<'a> From<PlanFault> for LookFault<'a> {
    ghost use Rattle.std.specs.Prelude.{◌≡◌};
    ghost use Rattle.acd_files.specs.declared.fault.LookFault.TheVariants.{Plan};

    ghost from_gives = { λ why fault. fault ≡ Plan why };

    fn from(fault: PlanFault) -> LookFault<'a> {
        LookFault::Plan(fault)
    }
}

impl<'a> From<AllocError> for LookFault<'a> {
    ghost use Rattle.std.specs.Prelude.{◌≡◌};
    ghost use Rattle.acd_files.specs.Faults.{look_without_memory};

    ghost from_gives = { λ _ fault. fault ≡ look_without_memory };

    fn from(_: AllocError) -> LookFault<'a> {
        LookFault::Path(PathFault::NoMemory)
    }
}

impl<'a> From<LookFault<'a>> for OpeningFault<'a> {
    ghost use Rattle.std.specs.Prelude.{◌≡◌};
    ghost use Rattle.acd_files.specs.declared.fault.OpeningFault.TheVariants.{Look};

    ghost from_gives = { λ why fault. fault ≡ Look why };

    fn from(fault: LookFault<'a>) -> OpeningFault<'a> {
        OpeningFault::Look(fault)
    }
}
