//! Reads between transactions by key and in pages, as records.
//!
//! A query asks for a number or a limit that no INTEGER column can hold as the greatest that one can. No number is
//! above that, and no answer is so long, which is checked before the rows are handed on.

ghost use Rattle.std.specs.Prelude.{◌≡◌, ◌⊎◌, ◌-◌, ◌^◌, ◌<◌, [], length, IfErr, IfOk, OnOk};
ghost use Rattle.acd_book.specs.Content.{events_page, kept_under, monitor_page, records_page};
ghost use Rattle.acd_sql_columns.specs.Transactions.{Fits};
ghost use Rattle.acd_sql_statements.specs.StoreFailures.{IsMemory};
ghost use Rattle.acd_sql_statements.specs.ReadFailures.{HasFitting};
ghost use Rattle.acd_sql_statements.specs.ReadsBetween.{LooksUpList, LooksUpItem};
ghost use Rattle.acd_sql_statements.specs.QueryResults.{event_rows, event_rows_at, events_page_at, kept_rows, monitor_at};

use crate::fitting::{fits, number_of};
use crate::query::{event_rows, event_rows_at, found_kept_row, found_monitor_row, kept_rows};
use crate::reads::{first, records};
use crate::select;
use acd_book::Kept;
use acd_terms::{DeviceId, Event, Invoke, MonitorRecord, Requester, find};
use sqlite::{Alter, Connection, Error, ErrorCode, Row};
use std::alloc::Global;

const GREATEST: u64 = i64::MAX as u64;

// The rows of a query that was asked for the least of each number and the greatest, where they are those of
// the numbers themselves.
fn meant(rows: Vec<Row>, number: u64, limit: u64) -> Result<Vec<Row>, Error>
    ensures same { IfOk result (λ page. page ≡ rows) }
    ensures none { OnOk result (¬ (Fits number) → rows.items ≡ []) }
    ensures fewer { OnOk result (¬ (Fits limit) → length rows.items < 2 ^ 63 - 1) }
    ensures other { IfErr result (λ e. IsMemory e ⊎ ((¬ (Fits number)) × HasFitting rows.items)) }
{
    if !fits(number) {
        if let Some(row) = rows.first() {
            // It is read so that its range is known: no column holds a number that is above.
            let _fits = number_of(row);
            return Err(Error::SqliteFailure(ErrorCode::DatabaseCorrupt));
        }
    }
    if !fits(limit) && rows.len() as u64 >= GREATEST {
        return Err(Error::SqliteFailure(ErrorCode::OutOfMemory));
    }
    Ok(rows)
}

fn event_page<S: Alter>(
    conn: &mut Connection<S>,
    number: u64,
    limit: u64,
) -> Result<Vec<Row>, Error>
    ensures { LooksUpList S.Store conn.old conn.new result (event_rows number limit) }
{
    let rows = event_rows(conn, number.min(GREATEST), limit.min(GREATEST))?;
    meant(rows, number, limit)
}

fn event_page_at<S: Alter>(
    conn: &mut Connection<S>,
    device: DeviceId,
    number: u64,
    limit: u64,
) -> Result<Vec<Row>, Error>
    ensures { LooksUpList S.Store conn.old conn.new result (event_rows_at device number limit) }
{
    let rows = event_rows_at(conn, device, number.min(GREATEST), limit.min(GREATEST))?;
    meant(rows, number, limit)
}

// The rows of the first kept records above a stamp.
fn kept_page<S: Alter>(conn: &mut Connection<S>, stamp: u64, limit: u64) -> Result<Vec<Row>, Error>
    ensures { LooksUpList S.Store conn.old conn.new result (kept_rows stamp limit) }
{
    let rows = kept_rows(conn, stamp.min(GREATEST), limit.min(GREATEST))?;
    meant(rows, stamp, limit)
}

/// The record kept under a key.
pub fn kept_under<S: Alter>(
    alloc: Global,
    conn: &mut Connection<S>,
    requester: &Requester,
    invoke: Invoke,
) -> Result<Option<Kept>, Error>
    ensures { LooksUpItem S.Store conn.old conn.new result (kept_under requester.now invoke) }
{
    let rows = found_kept_row(conn, requester, invoke)?;
    first(alloc, &rows)
}

/// The first kept records above a stamp.
pub fn records_after<S: Alter>(
    alloc: Global,
    conn: &mut Connection<S>,
    stamp: u64,
    limit: usize,
) -> Result<Vec<Kept>, Error>
    ensures { LooksUpList S.Store conn.old conn.new result (records_page stamp limit) }
{
    let rows = kept_page(conn, stamp, limit as u64)?;
    records(alloc, &rows)
}

/// The first events above a number.
pub fn events_after<S: Alter>(
    alloc: Global,
    conn: &mut Connection<S>,
    number: u64,
    limit: usize,
) -> Result<Vec<Event>, Error>
    ensures { LooksUpList S.Store conn.old conn.new result (events_page number limit) }
{
    let rows = event_page(conn, number, limit as u64)?;
    records(alloc, &rows)
}

/// The first events at a device above a number.
pub fn events_at<S: Alter>(
    alloc: Global,
    conn: &mut Connection<S>,
    device: DeviceId,
    number: u64,
    limit: usize,
) -> Result<Vec<Event>, Error>
    ensures { LooksUpList S.Store conn.old conn.new result (events_page_at device number limit) }
{
    let rows = event_page_at(conn, device, number, limit as u64)?;
    records(alloc, &rows)
}

/// A running monitor.
pub fn monitor_at<S: Alter>(
    alloc: Global,
    conn: &mut Connection<S>,
    number: u64,
) -> Result<Option<MonitorRecord>, Error>
    ensures { LooksUpItem S.Store conn.old conn.new result (monitor_at number) }
{
    if !fits(number) {
        let monitors = select::records::<MonitorRecord, S>(alloc, conn)?;
        return Ok(find(&monitors, number));
    }
    let rows = found_monitor_row(conn, number)?;
    first(alloc, &rows)
}

/// The first events of a running monitor above a number.
pub fn events_watched<S: Alter>(
    alloc: Global,
    conn: &mut Connection<S>,
    monitor: u64,
    number: u64,
    limit: usize,
) -> Result<Vec<Event>, Error>
    ensures { LooksUpList S.Store conn.old conn.new result (monitor_page monitor number limit) }
{
    match monitor_at(alloc, conn, monitor)? {
        Some(watch) => {
            let above = number.max(watch.after_event);
            events_at(alloc, conn, watch.device, above, limit)
        }
        None => Ok(Vec::new(alloc)),
    }
}
