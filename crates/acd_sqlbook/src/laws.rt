//! Laws of a book by its store. Each law is the contract of a function with an empty body, and is stated in `specs/`.
//!
//! A book is clean where its store is: where the disk has so far returned what was written to it, and nobody else has
//! written there.

ghost use Rattle.acd_sqlbook.specs.StoreLaws.{BooksAreAdopted, BooksReopen, MemoryIsClean, StoredIsOrdered};

use sqlite::Alter;

/// A book in memory is always clean.
pub fn memory_is_clean()
    ensures { MemoryIsClean }
{}

/// The content of a book's tables is in order: kept records by stamp and events by number, from 1 on.
pub fn stored_is_ordered()
    ensures { StoredIsOrdered }
{}

/// A book opens again: a look at its tables, whatever left them, finds a book of this content, and no fault.
pub fn books_reopen()
    ensures { BooksReopen }
{}

/// Over such a database `adopt` opens a book of its content. It fails only for want of memory, or where the store has
/// failed or the connection was shut.
pub fn books_are_adopted<S: Alter>()
    ensures { BooksAreAdopted S.Store }
{}
