//! Why a book makes no desk.

use acd_book::BookFault;
use acd_switch::RowFault;
use acd_terms::Rule;
use thiserror::Error;

/// Why a book makes no desk.
#[derive(Clone, Copy, Debug, PartialEq, Eq, Error)]
pub enum OpenFault {
    /// The first rule that its rows break.
    #[error("the rows of the book break the rule {0:?}")]
    Rows(Rule),
    /// Nothing has changed, and no failure is counted.
    #[error("out of memory")]
    NoMemory,
    /// The store has failed.
    #[error("the store has failed")]
    Store,
}

impl From<BookFault> for OpenFault {
    ghost use Rattle.std.specs.Prelude.{◌≡◌};
    ghost use Rattle.acd_desk.specs.Desks.Opening.{by_book};

    ghost from_gives = { λ fault made. made ≡ by_book fault };

    fn from(fault: BookFault) -> OpenFault {
        match fault {
            BookFault::NoMemory => OpenFault::NoMemory,
            BookFault::Store => OpenFault::Store,
        }
    }
}

impl From<RowFault> for OpenFault {
    ghost use Rattle.std.specs.Prelude.{◌≡◌};
    ghost use Rattle.acd_desk.specs.Desks.Opening.{by_rows};

    ghost from_gives = { λ fault made. made ≡ by_rows fault };

    fn from(fault: RowFault) -> OpenFault {
        match fault {
            RowFault::Broken(rule) => OpenFault::Rows(rule),
            RowFault::NoMemory => OpenFault::NoMemory,
        }
    }
}
