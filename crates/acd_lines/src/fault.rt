//! Why not all lines were answered.

ghost use Rattle.std.specs.Prelude.{◌≡◌};

use acd_io::Stopped;
use std::alloc::AllocError;
use thiserror::Error;

/// Why not all lines were answered.
#[derive(Clone, Copy, Debug, PartialEq, Eq, Error)]
pub enum LinesFault {
    /// The reader failed, or was called as often as it may be.
    #[error("cannot read")]
    Read,
    /// The writer failed, or was called as often as it may be.
    #[error("cannot write")]
    Write,
    /// There was no memory for the buffers. Nothing was read.
    #[error("no memory")]
    NoMemory,
}

impl From<AllocError> for LinesFault {
    ghost use Rattle.acd_lines.specs.declared.fault.LinesFault.TheVariants as faults;

    ghost from_gives = { λ x y. y ≡ faults.NoMemory };

    fn from(_: AllocError) -> LinesFault {
        LinesFault::NoMemory
    }
}

impl From<Stopped> for LinesFault {
    ghost use Rattle.acd_lines.specs.declared.fault.LinesFault.TheVariants as faults;

    ghost from_gives = { λ x y. y ≡ faults.Write };

    fn from(_: Stopped) -> LinesFault {
        LinesFault::Write
    }
}
