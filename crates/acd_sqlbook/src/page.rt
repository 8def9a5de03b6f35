//! Pages of a monitor by the numbers that an index has of its events.

ghost use Rattle.std.specs.Prelude.{Some};
ghost use Rattle.acd_sql_statements.specs.ReadsBetween.{FindsIn, HasReadCauseIn};
ghost use Rattle.acd_sql_statements.specs.EventsByNumber.{FindsIfOpen, HasReadCauseIfOpen};
ghost use Rattle.acd_sqlbook.specs.EventIndex.{IsDevicePage, IsIndexIn, IsPageBy};
ghost use Rattle.acd_sqlbook.specs.OverReady.{Carries, ReadyFails, ReadyReads};

use crate::index::Index;
use crate::ready::Ready;
use crate::rebuild::index_or_rebuild;
use acd_sql_statements::{events_at, events_numbered, events_watched, monitor_at};
use acd_terms::{DeviceId, Event};
use sqlite::{Alter, Connection, Error};
use std::alloc::Global;

// The first events at a device above a number: one by one, by the numbers that the index has of them, or by a look
// through all from there on.
fn page_at<S: Alter>(
    alloc: Global,
    conn: &mut Connection<S>,
    index: &Index,
    device: DeviceId,
    number: u64,
    limit: usize,
) -> Result<Vec<Event>, Error>
    ensures found { FindsIfOpen S.Store conn.old conn.new result
        (IsDevicePage index.now device number limit) }
    ensures cause { HasReadCauseIfOpen S.Store conn.old conn.new result }
{
    match index.numbers(device, number, limit) {
        Some(numbers) => events_numbered(alloc, conn, numbers),
        None => events_at(alloc, conn, device, number, limit),
    }
}

// The first events of a running monitor above a number.
fn page<S: Alter>(
    alloc: Global,
    conn: &mut Connection<S>,
    index: &Index,
    monitor: u64,
    number: u64,
    limit: usize,
) -> Result<Vec<Event>, Error>
    ensures found { FindsIn S.Store conn.old conn.new result
        (IsPageBy (Some index.now) monitor number limit) }
    ensures cause { HasReadCauseIn S.Store conn.old conn.new result }
{
    match monitor_at(alloc, conn, monitor)? {
        Some(watch) => {
            let above = number.max(watch.after_event);
            page_at(alloc, conn, index, watch.device, above, limit)
        }
        None => Ok(Vec::new(alloc)),
    }
}

// The same by what is indexed or, where nothing is, by a look at all.
fn recorded_page<S: Alter>(
    alloc: Global,
    conn: &mut Connection<S>,
    recorded: &Option<Index>,
    monitor: u64,
    number: u64,
    limit: usize,
) -> Result<Vec<Event>, Error>
    ensures found { FindsIn S.Store conn.old conn.new result
        (IsPageBy recorded.now monitor number limit) }
    ensures cause { HasReadCauseIn S.Store conn.old conn.new result }
{
    match recorded {
        Some(index) => page(alloc, conn, index, monitor, number, limit),
        None => events_watched(alloc, conn, monitor, number, limit),
    }
}

/// The first events of a running monitor above a number, by the index, which begins here where there is none.
pub(crate) fn page_followed<S: Alter>(
    alloc: Global,
    ready: &mut Ready<S>,
    recorded: &mut Option<Index>,
    monitor: u64,
    number: u64,
    limit: usize,
) -> Result<Vec<Event>, Error>
    ensures recorded { Carries ready (IsIndexIn recorded.old) (IsIndexIn recorded.new) }
    ensures read { ReadyReads ready result (IsPageBy recorded.old monitor number limit) }
    ensures cause { ReadyFails ready result }
{
    let next = index_or_rebuild(alloc, ready, recorded.take())?;
    ready.known_open = false;
    let found = recorded_page(alloc, &mut ready.conn, &next, monitor, number, limit);
    *recorded = next;
    found
}
