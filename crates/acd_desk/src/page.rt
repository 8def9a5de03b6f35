//! Records or events of a book that were read ahead, so that a page is read for many steps.

ghost use Rattle.std.specs.Prelude.{◌≡◌, ◌≤◌, length, true, IfOk};
ghost use Rattle.acd_book.specs.Content.{Content, events_after};
ghost use Rattle.acd_book.specs.State.{BookReads};
ghost use Rattle.acd_desk.specs.Reads.Kinds.{all_above, first_above, listed};
ghost use Rattle.acd_desk.specs.Reads.Pages.{IsPage, Reaches, Extends, GivesEvents};
ghost use Rattle.acd_book.specs.BookReads.{MayRead};

use crate::placed::Placed;
use acd_book::{Book, BookFault};
use acd_terms::Event;
use std::alloc::{AllocError, Global};

// How many a page has, where more are left.
const PAGE: usize = 100;

/// The first above a place, so many at most.
#[derive(Drop)]
pub(crate) struct Page<T> {
    pub(crate) above: u64,
    pub(crate) limit: usize,
    pub(crate) items: Vec<T>,
}

impl<T: Placed> Page<T> {
    /// A page of nothing.
    pub(crate) fn empty(alloc: Global) -> Page<T>
        ensures { (c : Content) → IsPage T.kind c result }
    {
        Page {
            above: 0,
            limit: 0,
            items: Vec::new(alloc),
        }
    }

    // Whether the first above a place, so many, are on the page.
    fn reaches(&self, above: u64, count: usize) -> bool
        ensures { result ≡ true → Reaches T.kind self.now above count }
    {
        self.above <= above
            && (self.items.len() < self.limit || has_above(&self.items, above, count))
    }

    /// Reads the next page, where this one doesn't reach so far.
    pub(crate) fn reach<B: Book>(
        &mut self,
        book: &mut B,
        above: u64,
        count: usize,
    ) -> Result<(), BookFault>
        ensures { MayRead B.state book.old book.new result
            (Extends T.kind (self.old, self.new) above count) }
    {
        if self.reaches(above, count) {
            return Ok(());
        }
        *self = read_page(book, above, count.max(PAGE))?;
        Ok(())
    }

    /// The first on the page above a place.
    pub(crate) fn next(&self, above: u64) -> Option<&T>
        ensures { listed result ≡ first_above T.kind.place above 1 self.now.items.items }
    {
        for item in &self.items {
            if item.place() > above {
                return Some(item);
            }
        }
        None
    }
}

impl Page<Event> {
    /// The first events above a number. Where the page doesn't reach so far, the next one is read.
    pub(crate) fn events_after<B: Book>(
        &mut self,
        alloc: Global,
        book: &mut B,
        number: u64,
        count: usize,
    ) -> Result<Vec<Event>, BookFault>
        ensures { MayRead B.state book.old book.new result
            (GivesEvents self.old self.new number count) }
    {
        self.reach(book, number, count)?;
        Ok(first_after(alloc, &self.items, number, count)?)
    }
}

fn read_page<T: Placed, B: Book>(
    book: &mut B,
    above: u64,
    limit: usize,
) -> Result<Page<T>, BookFault>
    ensures page { BookReads B.state book.old book.new result (λ c found. IsPage T.kind c found) }
    ensures at { IfOk result (λ found. (found.above ≡ above) × (found.limit ≡ limit)) }
{
    let items = T::read_above(book, above, limit)?;
    Ok(Page {
        above,
        limit,
        items,
    })
}

// Whether so many of these are above a place.
fn has_above<T: Placed>(items: &[T], above: u64, count: usize) -> bool
    ensures { result ≡ true → count ≤ length (all_above T.kind.place above items.now) }
{
    let mut left = count;
    for item in items {
        if left == 0 {
            return true;
        }
        if item.place() > above {
            left -= 1;
        }
    }
    left == 0
}

// The first of these events above a number.
fn first_after(
    alloc: Global,
    events: &[Event],
    number: u64,
    count: usize,
) -> Result<Vec<Event>, AllocError>
    ensures { IfOk result (λ found. found.items ≡ events_after events.now number count) }
{
    let mut found = Vec::with_capacity(alloc, count)?;
    for event in events {
        if found.len() == count {
            return Ok(found);
        }
        if event.number > number {
            found.push(*event)?;
        }
    }
    Ok(found)
}
