//! The place up to which the old records of a desk may go. It is searched for, and whether the archive has such a place
//! is a test of its own.

ghost use Rattle.std.specs.Prelude.{◌≤◌};
ghost use Rattle.std.specs.Bool.{Decides};
ghost use Rattle.acd_book.specs.State.{BookReads};
ghost use Rattle.acd_book.specs.BookReads.{Anything, MayRead};
ghost use Rattle.acd_desk.specs.Audits.Overlap.{DecidesCleanCut, IsBefore};
ghost use Rattle.acd_program.specs.Archives.Pruning.{DecidesPlace};

use crate::outcome::Cut;
use acd_book::{Book, BookFault, Kept};
use acd_command::Retention;
use acd_terms::{Event, Rows};

// So many records stay, whatever is asked for, and those of so many seconds before the last moment.
const LEAST_RECORDS: u64 = 1000;

const LEAST_SECONDS: u64 = 3600;

const DAY: u64 = 86_400;

// So many stamps go at most in one run, and then the rest of the last one's moment.
const MOST_STAMPS: u64 = 100_000;

// A search by halves takes no more steps.
const STEPS: u32 = 64;

// ---- what may go ----

#[derive(Clone, Copy)]
enum Sequence {
    Records,
    Events,
}

// A record or an event, by its stamp or number and its moment.
#[derive(Clone, Copy)]
struct Mark {
    place: u64,
    moment: u64,
}

fn first_record(records: &[Kept]) -> Option<Mark> {
    match records {
        [kept, ..] => Some(Mark {
            place: kept.stamp,
            moment: u64::from(kept.moment),
        }),
        [] => None,
    }
}

fn first_event(events: &[Event]) -> Option<Mark> {
    match events {
        [event, ..] => Some(Mark {
            place: event.number,
            moment: u64::from(event.moment),
        }),
        [] => None,
    }
}

fn next_record<B: Book>(book: &mut B, above: u64) -> Result<Option<Mark>, BookFault>
    ensures { MayRead B.state book.old book.new result Anything }
{
    let records = book.requests_after(above, 1)?;
    Ok(first_record(&records))
}

fn next_event<B: Book>(book: &mut B, above: u64) -> Result<Option<Mark>, BookFault>
    ensures { MayRead B.state book.old book.new result Anything }
{
    let events = book.events_after(above, 1)?;
    Ok(first_event(&events))
}

// The first one above a place.
fn next<B: Book>(book: &mut B, sequence: Sequence, above: u64) -> Result<Option<Mark>, BookFault>
    ensures { MayRead B.state book.old book.new result Anything }
{
    match sequence {
        Sequence::Records => next_record(book, above),
        Sequence::Events => next_event(book, above),
    }
}

// The place of one that isn't above this one, and is before a moment.
fn place_before(mark: Option<Mark>, most: u64, moment: u64) -> Option<u64> {
    match mark {
        Some(mark) if mark.place <= most && mark.moment < moment => Some(mark.place),
        _ => None,
    }
}

// The last place up to this one at which all is before a moment, or 0. No moment is before the one that precedes it.
fn last_before<B: Book>(
    book: &mut B,
    sequence: Sequence,
    most: u64,
    moment: u64,
) -> Result<u64, BookFault>
    ensures { MayRead B.state book.old book.new result Anything }
{
    let mut low: u64 = 0;
    let mut high = most;
    for _ in 0..STEPS {
        let middle = low.saturating_add(high.saturating_sub(low) / 2);
        let mark = next(book, sequence, middle)?;
        match place_before(mark, high, moment) {
            Some(place) => low = place,
            None => high = middle,
        }
    }
    Ok(low)
}

fn moment_of(mark: Option<Mark>) -> u64 {
    match mark {
        Some(mark) => mark.moment,
        None => 0,
    }
}

// The stamp of the first record, so many on.
fn stamp_after(first: Option<Mark>, count: u64) -> u64 {
    match first {
        Some(mark) => mark.place.saturating_add(count.saturating_sub(1)),
        None => 0,
    }
}

// How many records stay at least.
fn records_kept(retention: Retention) -> u64 {
    match retention {
        Retention::Days(_) => LEAST_RECORDS,
        Retention::Records(count) => LEAST_RECORDS.max(u64::from(count)),
    }
}

// Those of how many seconds stay.
fn seconds_kept(retention: Retention) -> u64 {
    match retention {
        Retention::Days(days) => LEAST_SECONDS.max(u64::from(days).saturating_mul(DAY)),
        Retention::Records(_) => LEAST_SECONDS,
    }
}

// The greatest stamp that the archive has, and above which enough records stay.
fn greatest_stamp(rows: &Rows, last: u64, retention: Retention) -> u64 {
    last.min(rows.last_stamp.saturating_sub(records_kept(retention)))
}

// The moment from which on all records stay.
fn horizon(rows: &Rows, retention: Retention) -> u64 {
    u64::from(rows.last_moment).saturating_sub(seconds_kept(retention))
}

// The last stamp up to this one that is before this moment, and before the moment of the record after it.
fn stamp_before<B: Book>(book: &mut B, most: u64, horizon: u64) -> Result<u64, BookFault>
    ensures { MayRead B.state book.old book.new result Anything }
{
    let next = next(book, Sequence::Records, most)?;
    last_before(book, Sequence::Records, most, horizon.min(moment_of(next)))
}

// The last stamp of what goes at once.
fn stamp_at_once<B: Book>(book: &mut B, stamp: u64) -> Result<u64, BookFault>
    ensures { MayRead B.state book.old book.new result Anything }
{
    let first = next(book, Sequence::Records, 0)?;
    let most = stamp_after(first, MOST_STAMPS);
    if stamp <= most {
        return Ok(stamp);
    }
    let last = next(book, Sequence::Records, most.saturating_sub(1))?;
    last_before(
        book,
        Sequence::Records,
        stamp,
        moment_of(last).saturating_add(1),
    )
}

// The last event at or before the moment of a record.
fn number_of<B: Book>(book: &mut B, stamp: u64, last: u64) -> Result<u64, BookFault>
    ensures { MayRead B.state book.old book.new result Anything }
{
    let kept = next(book, Sequence::Records, stamp.saturating_sub(1))?;
    last_before(
        book,
        Sequence::Events,
        last,
        moment_of(kept).saturating_add(1),
    )
}

// Where a book is cut up to this stamp, or where less of it goes at once.
fn cut_at<B: Book>(book: &mut B, stamp: u64, last: u64) -> Result<Cut, BookFault>
    ensures { MayRead B.state book.old book.new result Anything }
{
    let at_once = stamp_at_once(book, stamp)?;
    let number = number_of(book, at_once, last)?;
    Ok(Cut {
        stamp: at_once,
        number,
        is_part: at_once < stamp,
    })
}

/// Where a book may be cut whose archive has all records up to a stamp; none where nothing may go.
pub(crate) fn find_cut<B: Book>(
    book: &mut B,
    last: u64,
    retention: Retention,
) -> Result<Option<Cut>, BookFault>
    ensures { MayRead B.state book.old book.new result Anything }
{
    let rows = book.rows()?;
    let most = greatest_stamp(&rows, last, retention);
    let stamp = stamp_before(book, most, horizon(&rows, retention))?;
    if stamp == 0 {
        return Ok(None);
    }
    let cut = cut_at(book, stamp, rows.last_event)?;
    Ok(Some(cut))
}

// ---- whether it is a place ----

// Whether the event of a number, where it comes first of these, is before a moment.
fn is_before(events: &[Event], number: u64, moment: u32) -> bool
    ensures { Decides result (IsBefore events.now number moment) }
{
    match events {
        [event, ..] if event.number == number => event.moment < moment,
        _ => true,
    }
}

// Whether the last event up to a number is before the first record above a stamp.
fn is_clean<A: Book>(archive: &mut A, stamp: u64, number: u64) -> Result<bool, BookFault>
    ensures { BookReads A.state archive.old archive.new result (DecidesCleanCut stamp number) }
{
    let Some(first) = archive.kept_after(stamp)? else {
        return Ok(true);
    };
    let last = archive.events_after(number.saturating_sub(1), 1)?;
    Ok(is_before(&last, number, first.moment))
}

#[tactic(auto, using(std::proofs::lemmas::Bool::Decides::nat_tests))]
fn is_within(rows: &Rows, stamp: u64, number: u64) -> bool
    ensures { Decides result ((stamp ≤ rows.now.last_stamp) × (number ≤ rows.now.last_event)) }
{
    stamp <= rows.last_stamp && number <= rows.last_event
}

/// Whether the archive has all up to this stamp and this number, and its moment changes there.
pub(crate) fn is_place<A: Book>(archive: &mut A, stamp: u64, number: u64) -> Result<bool, BookFault>
    ensures { BookReads A.state archive.old archive.new result (DecidesPlace stamp number) }
{
    let rows = archive.rows()?;
    if !is_within(&rows, stamp, number) {
        return Ok(false);
    }
    is_clean(archive, stamp, number)
}
