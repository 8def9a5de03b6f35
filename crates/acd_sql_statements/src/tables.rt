//! The tables that grow with the history: the queries that look at the rows of each, and the statement that takes out
//! its oldest.

ghost use Rattle.std.specs.Prelude.{◌≡◌, []};
ghost use Rattle.acd_sql_columns.specs.Transactions.{Fits};
ghost use Rattle.acd_sql_statements.specs.ReadsBetween.{LooksAt};
ghost use Rattle.acd_sql_statements.specs.InTransaction.{WritesRow};
ghost use Rattle.acd_sql_statements.specs.Looks.{BeginsNine, HasGood, HasLookCauseIn};
ghost use Rattle.acd_sql_statements.specs.QueryResults.{low_rows, page_rows};
ghost use Rattle.acd_sql_statements.specs.UpTo.{removing_up_to, text_up_to};

use crate::look::{low_event_rows, low_kept_rows};
use crate::query::{event_rows, kept_rows};
use crate::write::write;
use acd_sql_columns::texts::{DELETE_EVENTS_UP_TO, DELETE_KEPT_UP_TO};
use acd_sql_columns::{Log, bind};
use sqlite::{Alter, Connection, Error, Row, Transaction};

/// A row whose number is below 1.
pub fn low_rows<S: Alter>(log: Log, conn: &mut Connection<S>) -> Result<Vec<Row>, Error>
    ensures looks { LooksAt S.Store conn.old conn.new result (low_rows log) }
    ensures looked { HasLookCauseIn (HasGood BeginsNine []) S.Store conn.old conn.new result }
{
    match log {
        Log::Events => low_event_rows(conn),
        Log::Kept => low_kept_rows(conn),
    }
}

/// The first thousand rows above a number.
pub fn rows_above<S: Alter>(
    log: Log,
    conn: &mut Connection<S>,
    number: u64,
) -> Result<Vec<Row>, Error>
    requires number { Fits number }
    ensures looks { LooksAt S.Store conn.old conn.new result (page_rows log number 1000) }
    ensures looked { HasLookCauseIn (HasGood BeginsNine []) S.Store conn.old conn.new result }
{
    match log {
        Log::Events => event_rows(conn, number, 1000),
        Log::Kept => kept_rows(conn, number, 1000),
    }
}

// The text that takes out the rows up to a number.
fn text_up_to(log: Log) -> &'static str
    ensures { result.now ≡ text_up_to log }
{
    match log {
        Log::Events => DELETE_EVENTS_UP_TO,
        Log::Kept => DELETE_KEPT_UP_TO,
    }
}

/// Takes out the rows up to a number. It works inside a transaction, and adds no stop.
pub fn remove_up_to<S: Alter>(
    tx: &mut Transaction<'_, S>,
    log: Log,
    number: u64,
) -> Result<(), Error>
    requires { Fits number }
    ensures { WritesRow S.Store tx.old.conn tx.new.conn result (removing_up_to log number) }
{
    write(tx, text_up_to(log), &[bind::integer(number)])
}
