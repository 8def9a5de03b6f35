//! What a book has in common with the archive that it continues.

ghost use Rattle.std.specs.Prelude.{◌≡◌, IfOk, is_some};
ghost use Rattle.std.specs.Bool.{Decides};
ghost use Rattle.acd_book.specs.Content.{Content};
ghost use Rattle.acd_book.specs.State.{BookReads};
ghost use Rattle.acd_book.specs.BookReads.{Anything, IfOrdered, MayRead};
ghost use Rattle.acd_book.specs.ListOverlap.{cut_before};
ghost use Rattle.acd_desk.specs.Reads.Kinds.{listed};
ghost use Rattle.acd_desk.specs.Audits.Pairs.{BorrowsSame, BothRead};
ghost use Rattle.acd_desk.specs.Audits.Overlap.{IsCutAt, IsCutOf, IsBefore, DecidesCleanCut, IsNextOf, ArePagesOf, ReadsNext, FindsOther, FindsMoment, FindsAbove, FindsPlace, earlier};

use crate::page::Page;
use crate::pair::{Pair, PairFault, of_archive, of_current};
use crate::placed::Placed;
use crate::progress::Progress;
use acd_book::{Book, BookFault, Kept};
use acd_terms::Event;
use std::alloc::Global;

// ---- the cut ----

/// The place where an archive was cut: the last stamp and the last event number that were left in it.
#[derive(Clone, Copy)]
pub(crate) struct Cut {
    pub(crate) stamp: u64,
    pub(crate) number: u64,
}

// The place before that of the first, or the last of all.
fn place_before<T: Placed>(items: &[T], last: u64) -> u64
    ensures { result ≡ cut_before T.kind.place last items.now }
{
    match items {
        [] => last,
        [first, ..] => last.min(first.place().saturating_sub(1)),
    }
}

// The last place of a kind that was left in the archive.
fn cut_at<T: Placed, B: Book>(book: &mut B, last: u64) -> Result<u64, BookFault>
    ensures { BookReads B.state book.old book.new result (IsCutAt T.kind last) }
{
    let first: Vec<T> = T::read_above(book, 0, 1)?;
    Ok(place_before(&first, last))
}

// The place where the archive was cut, by the first records of the book.
fn cut_of<B: Book>(book: &mut B, last: Cut) -> Result<Cut, BookFault>
    ensures { BookReads B.state book.old book.new result (IfOrdered (IsCutOf last)) }
{
    let stamp = cut_at::<Kept, B>(book, last.stamp)?;
    let number = cut_at::<Event, B>(book, last.number)?;
    Ok(Cut { stamp, number })
}

// Whether the event of a number, where it comes first of these, is before a moment.
fn is_before(events: &[Event], number: u64, moment: u32) -> bool
    ensures { Decides result (IsBefore events.now number moment) }
{
    match events {
        [event, ..] if event.number == number => event.moment < moment,
        _ => true,
    }
}

// Whether the last event left in the archive is before the first record that was carried over.
fn is_clean_cut<A: Book>(archive: &mut A, cut: Cut) -> Result<bool, BookFault>
    ensures { BookReads A.state archive.old archive.new result
        (DecidesCleanCut cut.stamp cut.number) }
{
    let Some(first) = archive.kept_after(cut.stamp)? else {
        return Ok(true);
    };
    let last = archive.events_after(cut.number.saturating_sub(1), 1)?;
    Ok(is_before(&last, cut.number, first.moment))
}

// ---- one kind ----

/// The next of an archive and of a book, above a place.
#[derive(Clone, Copy)]
pub(crate) enum Next {
    /// The same, at this place.
    Same(u64),
    /// One has something that the other hasn't, which has this mark.
    Other(u64),
    /// The archive has nothing more, nor has the book up to the last place.
    Over,
}

// The next of both.
fn next_of<T: Placed>(archived: Option<&T>, current: Option<&T>, last: u64) -> Next
    ensures { IsNextOf (T.kind.place, last) (listed archived.entry) (listed current.entry) result }
{
    match (archived, current) {
        (Some(item), Some(other)) => {
            if item.is_same(other) {
                return Next::Same(item.place());
            }
            let first = if other.place() < item.place() {
                other
            } else {
                item
            };
            Next::Other(first.mark())
        }
        (Some(item), None) => Next::Other(item.mark()),
        (None, Some(other)) if other.place() <= last => Next::Other(other.mark()),
        (None, _) => Next::Over,
    }
}

/// What was read ahead of an archive, and of the book that continues it.
#[derive(Drop)]
pub(crate) struct Pages<T> {
    pub(crate) archive: Page<T>,
    pub(crate) current: Page<T>,
}

impl<T: Placed> Pages<T> {
    // Pages of nothing.
    fn empty(alloc: Global) -> Pages<T>
        ensures { (a c : Content) → ArePagesOf T.kind a c result }
    {
        Pages {
            archive: Page::empty(alloc),
            current: Page::empty(alloc),
        }
    }

    // The next of both above a place.
    fn next<A: Book, B: Book>(
        &mut self,
        pair: &mut Pair<A, B>,
        above: u64,
        last: u64,
    ) -> Result<Next, PairFault>
        ensures same { BorrowsSame pair.old pair.new }
        ensures read { BothRead A.state B.state (pair.old, pair.new) result
            (ReadsNext T.kind (self.old, self.new) above last) }
    {
        of_archive(self.archive.reach(&mut *pair.archive, above, 1))?;
        of_current(self.current.reach(&mut *pair.book, above, 1))?;
        Ok(next_of(self.archive.next(above), self.current.next(above), last))
    }
}

// The stamp of the archive's first record above this one that isn't before a moment, or the last one.
fn stamp_at<A: Book>(archive: &mut A, above: u64, last: u64, moment: u64) -> Result<u64, BookFault>
    ensures { MayRead A.state archive.old archive.new result Anything }
{
    let mut stamp = above;
    for _ in above..last {
        let Some(kept) = archive.kept_after(stamp)? else {
            return Ok(last);
        };
        stamp = kept.stamp;
        if u64::from(kept.moment) >= moment {
            return Ok(stamp);
        }
    }
    Ok(last)
}

// The stamp that belongs to a moment, where there is one.
fn stamp_of_moment<A: Book>(
    archive: &mut A,
    above: u64,
    last: u64,
    moment: Option<u64>,
) -> Result<Option<u64>, BookFault>
    ensures read { MayRead A.state archive.old archive.new result Anything }
    ensures same { IfOk result (λ found. is_some found ≡ is_some moment) }
{
    match moment {
        Some(moment) => Ok(Some(stamp_at(archive, above, last, moment)?)),
        None => Ok(None),
    }
}

// The lesser of two stamps, where there is one: at most the last one.
fn earlier(first: Option<u64>, second: Option<u64>, last: u64) -> Option<u64>
    ensures { result ≡ earlier first second last }
{
    match (first, second) {
        (Some(first), Some(second)) => Some(first.min(second).min(last)),
        (Some(stamp), None) | (None, Some(stamp)) => Some(stamp.min(last)),
        (None, None) => None,
    }
}

impl<A: Book, B: Book> Pair<'_, A, B> {
    // The mark of the first of a kind above a place, up to the last one, that only one of them has.
    fn other<T: Placed, P: Progress>(
        &mut self,
        alloc: Global,
        above: u64,
        last: u64,
        progress: &mut P,
    ) -> Result<Option<u64>, PairFault>
        ensures same { BorrowsSame self.old self.new }
        ensures read { BothRead A.state B.state (self.old, self.new) result
            (FindsOther T.kind above last) }
    {
        let mut pages: Pages<T> = Pages::empty(alloc);
        let mut place = above;
        for _ in above..last {
            match pages.next(self, place, last)? {
                Next::Same(next) => {
                    progress.reached(next);
                    place = next;
                }
                Next::Other(mark) => return Ok(Some(mark)),
                Next::Over => return Ok(None),
            }
        }
        Ok(None)
    }

    // The moment of the first event that only one of them has; 0 where some events of the first carried record were
    // left in the archive.
    fn other_moment(&mut self, alloc: Global, cut: Cut, last: u64) -> Result<Option<u64>, PairFault>
        ensures same { BorrowsSame self.old self.new }
        ensures read { BothRead A.state B.state (self.old, self.new) result
            (FindsMoment cut last) }
    {
        let clean = of_archive(is_clean_cut(&mut *self.archive, cut))?;
        if !clean {
            return Ok(Some(0));
        }
        self.other::<Event, ()>(alloc, cut.number, last, &mut ())
    }

    // The first stamp above the cut at which they differ.
    fn other_above<P: Progress>(
        &mut self,
        alloc: Global,
        cut: Cut,
        last: Cut,
        progress: &mut P,
    ) -> Result<Option<u64>, PairFault>
        ensures same { BorrowsSame self.old self.new }
        ensures read { BothRead A.state B.state (self.old, self.new) result
            (FindsAbove cut last) }
    {
        let kept = self.other::<Kept, P>(alloc, cut.stamp, last.stamp, progress)?;
        let moment = self.other_moment(alloc, cut, last.number)?;
        let event = stamp_of_moment(&mut *self.archive, cut.stamp, last.stamp, moment);
        Ok(earlier(kept, of_archive(event)?, last.stamp))
    }

    /// The first stamp up to the archive's last one at which the book isn't as the archive: by its record, or by an
    /// event of it, which has its stamp by its moment alone.
    pub(crate) fn other_place<P: Progress>(
        &mut self,
        alloc: Global,
        last: Cut,
        progress: &mut P,
    ) -> Result<Option<u64>, PairFault>
        ensures same { BorrowsSame self.old self.new }
        ensures read { BothRead A.state B.state (self.old, self.new) result
            (FindsPlace last) }
    {
        let cut = of_current(cut_of(&mut *self.book, last))?;
        self.other_above(alloc, cut, last, progress)
    }
}
