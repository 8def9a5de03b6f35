//! What a book keeps in an order: records by their stamps, events by their numbers.

ghost use Rattle.std.specs.Prelude.{◌≡◌};
ghost use Rattle.std.specs.Bool.{Decides};
ghost use Rattle.acd_book.specs.State.{BookLists};
ghost use Rattle.acd_desk.specs.Reads.Kinds.{Kind, page_above};

use acd_book::{Book, BookFault, Kept};
use acd_terms::Event;

/// A record or an event, with its place in the order.
pub(crate) trait Placed: Drop {
    ghost kind: { Kind Self };

    /// Its stamp or number.
    fn place(&self) -> u64
        ensures { result ≡ kind.place self.now };

    /// What tells where it is: the stamp of a record, the moment of an event.
    fn mark(&self) -> u64;

    fn is_same(&self, other: &Self) -> bool
        ensures { Decides result (self.now ≡ other.now) };

    /// The first `limit` of a book above a place.
    fn read_above<B: Book>(book: &mut B, above: u64, limit: usize) -> Result<Vec<Self>, BookFault>
        ensures { BookLists B.state book.old book.new result (page_above kind above limit) };
}

impl Placed for Kept {
    ghost use Rattle.acd_desk.specs.Reads.Kinds.{by_stamp};

    ghost kind = { by_stamp };

    fn place(&self) -> u64 {
        self.stamp
    }

    fn mark(&self) -> u64 {
        self.stamp
    }

    fn is_same(&self, other: &Kept) -> bool {
        *self == *other
    }

    fn read_above<B: Book>(book: &mut B, above: u64, limit: usize) -> Result<Vec<Kept>, BookFault> {
        book.requests_after(above, limit)
    }
}

impl Placed for Event {
    ghost use Rattle.acd_desk.specs.Reads.Kinds.{by_number};

    ghost kind = { by_number };

    fn place(&self) -> u64 {
        self.number
    }

    fn mark(&self) -> u64 {
        u64::from(self.moment)
    }

    fn is_same(&self, other: &Event) -> bool {
        *self == *other
    }

    fn read_above<B: Book>(
        book: &mut B,
        above: u64,
        limit: usize,
    ) -> Result<Vec<Event>, BookFault> {
        book.events_after(above, limit)
    }
}
