//! Why a desk answers nothing.

ghost use Rattle.std.specs.Prelude.{◌≡◌};

use std::alloc::{AllocError, AllocFailed};
use thiserror::Error;

/// Why a read of a desk gave no answer.
#[derive(Clone, Copy, Debug, PartialEq, Eq, Error)]
pub enum DeskFault {
    /// Nothing has changed.
    #[error("out of memory")]
    NoMemory,
    /// The store has failed, and the desk answers nothing else.
    #[error("the store has failed")]
    StoreFault,
}

impl From<AllocError> for DeskFault {
    ghost use Rattle.acd_desk.specs.declared.fault.DeskFault.TheVariants.{NoMemory};

    ghost from_gives = { λ _ fault. fault ≡ NoMemory };

    fn from(_error: AllocError) -> DeskFault {
        DeskFault::NoMemory
    }
}

impl<T: Drop> From<AllocFailed<T>> for DeskFault {
    ghost use Rattle.acd_desk.specs.declared.fault.DeskFault.TheVariants.{NoMemory};

    ghost from_gives = { λ _ fault. fault ≡ NoMemory };

    fn from(_error: AllocFailed<T>) -> DeskFault {
        DeskFault::NoMemory
    }
}
