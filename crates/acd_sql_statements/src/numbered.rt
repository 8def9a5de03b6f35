//! Reads of events by their numbers.

ghost use Rattle.std.specs.Prelude.{◌≡◌, ◌++◌, IfErr, OnOk};
ghost use Rattle.acd_sql_statements.specs.ReadsBetween.{FindsIn, HasReadCauseIn};
ghost use Rattle.acd_sql_statements.specs.StoreFailures.{IsMemory};
ghost use Rattle.acd_sql_statements.specs.EventsByNumber.{AddsPicked, ArePicked, FindsIfOpen, HasReadCauseIfOpen};

use crate::lookups::events_after;
use acd_terms::Event;
use sqlite::{Alter, Connection, Error, ErrorCode};
use std::alloc::Global;

fn add_all<T: Copy + Drop>(found: &mut Vec<T>, more: &[T]) -> Result<(), Error>
    ensures added { OnOk result (found.new.items ≡ found.old.items ++ more.now) }
    ensures full { IfErr result IsMemory }
{
    match found.extend_from_slice(more) {
        Ok(()) => Ok(()),
        Err(_) => Err(Error::SqliteFailure(ErrorCode::OutOfMemory)),
    }
}

// Adds the first event that isn't below the number.
fn add_numbered<S: Alter>(
    alloc: Global,
    conn: &mut Connection<S>,
    found: &mut Vec<Event>,
    number: u64,
) -> Result<(), Error>
    ensures found { FindsIn S.Store conn.old conn.new result
        (AddsPicked number found.old found.new) }
    ensures cause { HasReadCauseIn S.Store conn.old conn.new result }
{
    let more = events_after(alloc, conn, number.saturating_sub(1), 1)?;
    add_all(found, &more)
}

/// For each of these numbers the first event that isn't below it, over a connection that works.
pub fn events_numbered<S: Alter>(
    alloc: Global,
    conn: &mut Connection<S>,
    numbers: &[u64],
) -> Result<Vec<Event>, Error>
    ensures found { FindsIfOpen S.Store conn.old conn.new result (ArePicked numbers.now) }
    ensures cause { HasReadCauseIfOpen S.Store conn.old conn.new result }
{
    let mut found = Vec::new(alloc);
    for number in numbers {
        add_numbered(alloc, conn, &mut found, *number)?;
    }
    Ok(found)
}
