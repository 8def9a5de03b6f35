//! An archive and the book that continues it, and what reads of both answer.

ghost use Rattle.std.specs.Prelude.{◌≡◌};
ghost use Rattle.acd_desk.specs.Audits.Pairs.{of_current, of_archive, of_opening};

use crate::open_fault::OpenFault;
use acd_book::{Book, BookFault};
use std::alloc::AllocError;

/// An archive, and the book that continues it.
#[derive(Drop)]
pub(crate) struct Pair<'a, A: Book, B: Book> {
    pub(crate) archive: &'a mut A,
    pub(crate) book: &'a mut B,
}

/// Why reads of both answered nothing.
#[derive(Clone, Copy, Debug, PartialEq, Eq)]
pub(crate) enum PairFault {
    /// The book gave no answer.
    Current(BookFault),
    /// The archive gave none, or its rows break a rule.
    Archive(OpenFault),
}

impl From<AllocError> for PairFault {
    ghost use Rattle.acd_desk.specs.declared.pair.PairFault.TheVariants.{Current};
    ghost use Rattle.acd_book.specs.declared.fault.BookFault.TheVariants.{NoMemory};

    ghost from_gives = { λ _ fault. fault ≡ Current NoMemory };

    fn from(_error: AllocError) -> PairFault {
        PairFault::Current(BookFault::NoMemory)
    }
}

/// The answer of the book, as the answer of both.
pub(crate) fn of_current<T>(read: Result<T, BookFault>) -> Result<T, PairFault>
    ensures { result ≡ of_current read }
{
    match read {
        Ok(found) => Ok(found),
        Err(fault) => Err(PairFault::Current(fault)),
    }
}

/// The answer of the archive.
pub(crate) fn of_archive<T>(read: Result<T, BookFault>) -> Result<T, PairFault>
    ensures { result ≡ of_archive read }
{
    match read {
        Ok(found) => Ok(found),
        Err(fault) => Err(PairFault::Archive(OpenFault::from(fault))),
    }
}

/// The result of opening the archive.
pub(crate) fn of_opening<T>(read: Result<T, OpenFault>) -> Result<T, PairFault>
    ensures { result ≡ of_opening read }
{
    match read {
        Ok(found) => Ok(found),
        Err(fault) => Err(PairFault::Archive(fault)),
    }
}
