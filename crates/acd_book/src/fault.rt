//! Why a call of a book gave no answer.

ghost use Rattle.std.specs.Prelude.{◌≡◌};

use std::alloc::{AllocError, AllocFailed};
use thiserror::Error;

/// Why a call of a book gave no answer.
#[derive(Clone, Copy, Debug, PartialEq, Eq, Error)]
pub enum BookFault {
    /// Nothing has changed, and no failure is counted.
    #[error("out of memory")]
    NoMemory,
    /// The store has failed, and a failure is counted. A commit was made whole or not at all.
    #[error("the store has failed")]
    Store,
}

impl From<AllocError> for BookFault {
    ghost use Rattle.acd_book.specs.declared.fault.BookFault.TheVariants.{NoMemory};

    ghost from_gives = { λ _ fault. fault ≡ NoMemory };

    fn from(_error: AllocError) -> BookFault {
        BookFault::NoMemory
    }
}

impl<T: Drop> From<AllocFailed<T>> for BookFault {
    ghost use Rattle.acd_book.specs.declared.fault.BookFault.TheVariants.{NoMemory};

    ghost from_gives = { λ _ fault. fault ≡ NoMemory };

    fn from(_error: AllocFailed<T>) -> BookFault {
        BookFault::NoMemory
    }
}
