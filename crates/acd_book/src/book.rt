//! The operations that a desk needs of a store.

ghost use Rattle.std.specs.Prelude.{◌≡◌};
ghost use Rattle.acd_book.specs.Content.{Content, kept_under, IsNextKept, records_page, events_page, monitor_page, commit_of, commit_by};
ghost use Rattle.acd_book.specs.State.{BookState, BookReads, BookFinds, BookLists, BookCommits};

use crate::fault::BookFault;
use crate::kept::Kept;
use acd_model::Change;
use acd_terms::{Event, Invoke, Limits, Requester, Rows};

/// A store of the limits, the tables, the event reports and the kept replies.
///
/// Its content is known while it is open. A call that fails may shut it; then only its stops say what a reopening may
/// find. It is clean while its store has kept its promises. That may end at any call, so statements on many calls
/// assume that it was sound and open at their start and is clean at their end.
pub trait Book {
    ghost state: { Self → BookState };

    /// How often its store has failed. It takes no memory, and the count stays at its greatest value.
    fn failures(&self) -> u64
        ensures { result ≡ (state self.now).failures };

    /// The limits under which the book was made.
    fn limits(&mut self) -> Result<Limits, BookFault>
        ensures { BookFinds state self.old self.new result (λ c. c.rows.limits) };

    /// The limits, the tables and the counters.
    fn rows(&mut self) -> Result<Rows, BookFault>
        ensures { BookFinds state self.old self.new result (λ c. c.rows) };

    /// The record kept under a key.
    fn kept(&mut self, requester: &Requester, invoke: Invoke) -> Result<Option<Kept>, BookFault>
        ensures { BookFinds state self.old self.new result (kept_under requester.now invoke) };

    /// The kept record of the least greater stamp.
    fn kept_after(&mut self, stamp: u64) -> Result<Option<Kept>, BookFault>
        ensures { BookReads state self.old self.new result (IsNextKept stamp) };

    /// The first `limit` kept records above a stamp.
    fn requests_after(&mut self, stamp: u64, limit: usize) -> Result<Vec<Kept>, BookFault>
        ensures { BookLists state self.old self.new result (records_page stamp limit) };

    /// The first `limit` events above a number.
    fn events_after(&mut self, number: u64, limit: usize) -> Result<Vec<Event>, BookFault>
        ensures { BookLists state self.old self.new result (events_page number limit) };

    /// The first `limit` events of a running monitor above a number.
    fn events_of_monitor(
        &mut self,
        monitor: u64,
        number: u64,
        limit: usize,
    ) -> Result<Vec<Event>, BookFault>
        ensures { BookLists state self.old self.new result (monitor_page monitor number limit) };

    /// Replaces the tables, and adds the events and the kept record, all or none. Its new content is defined for a
    /// record that follows the kept ones.
    fn commit(&mut self, rows: &Rows, events: &[Event], kept: &Kept) -> Result<(), BookFault>
        ensures { BookCommits state self.old self.new result
            (commit_of rows.now events.now kept.now) };

    /// The same with the tables that changes make of those that it holds, one after the other, with the
    /// counters that the kept record and the events give.
    fn commit_changes(
        &mut self,
        changes: &[Change],
        events: &[Event],
        kept: &Kept,
    ) -> Result<(), BookFault>
        ensures { BookCommits state self.old self.new result
            (commit_by changes.now events.now kept.now) };

    // While it is open, its content is the one stop.
    ghost settled: { (book : Self) (c : Content) → (state book).is_clean → (state book).is_sound
        → (state book).is_open → (state book).stops c → c ≡ (state book).content };

    ghost stays: { (book : Self) → (state book).is_clean → (state book).is_sound
        → (state book).is_open → (state book).stops (state book).content };

    // A reopening finds something, also once a failure has shut it.
    ghost stands: { (book : Self) → (state book).is_clean → (state book).is_sound
        → ∥ ((c : Content) × (state book).stops c) ∥₁ };
}
