//! A book in memory.

ghost use Rattle.std.specs.Prelude.{◌≡◌, refl};
ghost use Rattle.acd_book.specs.Content.{empty_content};
ghost use Rattle.acd_book.specs.State.{unfailing};

use crate::book::Book;
use crate::contents::Contents;
use crate::fault::BookFault;
use crate::kept::Kept;
use acd_model::Change;
use acd_terms::{Event, Invoke, Limits, Requester, Rows};
use std::alloc::Global;
use std::marker::Model;

/// A book in memory, seen as its content. Its store never fails.
///
/// Its events are numbered 1, 2, 3 and so on, and so are its kept records. A commit that doesn't follow (a number or a
/// stamp that doesn't continue, a key that is kept, rows out of order) is refused with [`BookFault::NoMemory`], and
/// nothing is changed.
///
/// A read by key, by stamp or by number takes no longer as the book grows, and a commit of changes takes
/// the time of its changes.
#[derive(Drop)]
pub struct MemoryBook {
    contents: Contents,
}

impl Model for MemoryBook {
    ghost use Rattle.acd_book.specs.Content.{Content};
    ghost use Rattle.acd_book.specs.MemoryContent.{memory_content};

    ghost Value = { Content };

    ghost view = { λ b. memory_content b.contents };
}

impl MemoryBook {
    /// A book of a desk with no plan and no executed request.
    pub fn new(alloc: Global, limits: Limits) -> MemoryBook
        ensures { result ≡ empty_content limits }
    {
        MemoryBook {
            contents: Contents::new(alloc, limits),
        }
    }
}

impl Book for MemoryBook {
    ghost state = { unfailing };

    ghost settled = { λ b c clean sound up found. found };

    ghost stays = { λ b clean sound up. refl };

    ghost stands = { λ b clean sound. ∣ (_, refl) ∣₁ };

    fn failures(&self) -> u64 {
        0
    }

    fn limits(&mut self) -> Result<Limits, BookFault> {
        Ok(self.contents.ledger.limits())
    }

    fn rows(&mut self) -> Result<Rows, BookFault> {
        Ok(self.contents.ledger.rows()?)
    }

    fn kept(&mut self, requester: &Requester, invoke: Invoke) -> Result<Option<Kept>, BookFault> {
        Ok(self.contents.kept(requester, invoke)?)
    }

    fn kept_after(&mut self, stamp: u64) -> Result<Option<Kept>, BookFault> {
        Ok(self.contents.kept_after(stamp)?)
    }

    fn requests_after(&mut self, stamp: u64, limit: usize) -> Result<Vec<Kept>, BookFault> {
        Ok(self.contents.requests_after(stamp, limit)?)
    }

    fn events_after(&mut self, number: u64, limit: usize) -> Result<Vec<Event>, BookFault> {
        Ok(self.contents.events_after(number, limit)?)
    }

    fn events_of_monitor(
        &mut self,
        monitor: u64,
        number: u64,
        limit: usize,
    ) -> Result<Vec<Event>, BookFault> {
        Ok(self.contents.events_of_monitor(monitor, number, limit)?)
    }

    fn commit(&mut self, rows: &Rows, events: &[Event], kept: &Kept) -> Result<(), BookFault> {
        Ok(self.contents.commit(rows, events, kept)?)
    }

    fn commit_changes(
        &mut self,
        changes: &[Change],
        events: &[Event],
        kept: &Kept,
    ) -> Result<(), BookFault> {
        Ok(self.contents.commit_changes(changes, events, kept)?)
    }
}
