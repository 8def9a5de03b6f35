//! The index of a book that holds some events already.

ghost use Rattle.acd_sql_statements.specs.ReadsBetween.{FindsIn, HasReadCauseIn};
ghost use Rattle.acd_sql_statements.specs.EventsByNumber.{FindsIfOpen, HasReadCauseIfOpen};
ghost use Rattle.acd_sqlbook.specs.EventIndex.{EndsIndex, IsIndexIn, KeepsIndex};
ghost use Rattle.acd_sqlbook.specs.OverReady.{ReadyFails, ReadyReads};

use crate::index::{Index, index_extended};
use crate::ready::Ready;
use acd_book::MonitorIndex;
use acd_sql_statements::{events_after, rows};
use acd_terms::MonitorRecord;
use sqlite::{Alter, Connection, Error};
use std::alloc::Global;

// So many events are read at once.
const PAGE: usize = 1000;

// No monitor reports an event up to this number, so that a pass may begin there; any other number would do. Where there
// is none it is the last event's.
fn earliest(monitors: &[MonitorRecord], last: u64) -> u64 {
    let mut least = last;
    for monitor in monitors {
        least = least.min(monitor.after_event);
    }
    least
}

// The index that continues one that has begun, through all events that are left, page by page.
fn index_all<S: Alter>(
    alloc: Global,
    conn: &mut Connection<S>,
    begun: Index,
) -> Result<Option<Index>, Error>
    ensures found { FindsIfOpen S.Store conn.old conn.new result (EndsIndex begun) }
    ensures cause { HasReadCauseIfOpen S.Store conn.old conn.new result }
{
    let mut index = begun;
    for _ in 0..u64::MAX {
        let page = events_after(alloc, conn, index.last, PAGE)?;
        if page.is_empty() {
            return Ok(Some(index));
        }
        match index_extended(index, &[], &page) {
            Some(next) => index = next,
            None => return Ok(None),
        }
    }
    Ok(None)
}

// The index of all events that are held.
fn rebuilt_index<S: Alter>(alloc: Global, conn: &mut Connection<S>) -> Result<Option<Index>, Error>
    ensures found { FindsIn S.Store conn.old conn.new result (λ c recorded. IsIndexIn recorded c) }
    ensures cause { HasReadCauseIn S.Store conn.old conn.new result }
{
    let rows = rows(alloc, conn)?;
    let monitors = rows.monitors.as_slice();
    let last = earliest(monitors, rows.last_event);
    let watched = MonitorIndex::of_monitors(alloc, monitors, last);
    index_all(alloc, conn, Index { watched, last })
}

/// What is indexed of a book, which begins here where nothing is indexed yet.
pub(crate) fn index_or_rebuild<S: Alter>(
    alloc: Global,
    ready: &mut Ready<S>,
    recorded: Option<Index>,
) -> Result<Option<Index>, Error>
    ensures read { ReadyReads ready result (KeepsIndex recorded) }
    ensures cause { ReadyFails ready result }
{
    ready.refresh()?;
    match recorded {
        Some(index) => Ok(Some(index)),
        None => rebuilt_index(alloc, &mut ready.conn),
    }
}
