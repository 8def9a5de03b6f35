//! The queries between transactions, one a function: rows of one table, in the order of its key.

ghost use Rattle.std.specs.Prelude.{[]};
ghost use Rattle.acd_sql_columns.specs.declared.tables.Log.TheVariants as log;
ghost use Rattle.acd_sql_columns.specs.declared.tables.Table.TheVariants as table;
ghost use Rattle.acd_sql_columns.specs.Transactions.{Fits};
ghost use Rattle.acd_sql_statements.specs.ReadsBetween.{FindsList, HasReadCauseIn, LooksUpList, SeesOver};
ghost use Rattle.acd_sql_statements.specs.Looks.{BeginsNine, HasGood, HasLookCauseIn};
ghost use Rattle.acd_sql_statements.specs.QueryResults.{connection_rows, event_rows, event_rows_at, further_rows, found_kept_row, kept_rows, found_monitor_row, page_rows, table_rows};

use crate::read::read;
use acd_sql_columns::bind;
use acd_sql_columns::texts::{
    SELECT_AGENT_GROUPS, SELECT_CONNECTIONS, SELECT_EVENTS_AFTER, SELECT_EVENTS_AT_DEVICE,
    SELECT_KEPT_AFTER, SELECT_KEPT_OF_REQUEST, SELECT_MONITOR,
};
use acd_terms::{DeviceId, Invoke, Requester};
use sqlite::{Alter, Connection, Error, Row};

/// The row of a monitor, if it is running.
pub fn found_monitor_row<S: Alter>(
    conn: &mut Connection<S>,
    monitor: u64,
) -> Result<Vec<Row>, Error>
    requires number { Fits monitor }
    ensures { LooksUpList S.Store conn.old conn.new result (found_monitor_row monitor) }
{
    read(conn, SELECT_MONITOR, &[bind::integer(monitor)])
}

/// The first rows of events above a number.
pub fn event_rows<S: Alter>(
    conn: &mut Connection<S>,
    number: u64,
    limit: u64,
) -> Result<Vec<Row>, Error>
    requires number { Fits number }
    requires limit { Fits limit }
    ensures found { FindsList S.Store conn.old conn.new result (event_rows number limit) }
    ensures seen { SeesOver S.Store conn.old conn.new result (page_rows log.Events number limit) }
    ensures cause { HasReadCauseIn S.Store conn.old conn.new result }
    ensures looked { HasLookCauseIn (HasGood BeginsNine []) S.Store conn.old conn.new result }
{
    read(
        conn,
        SELECT_EVENTS_AFTER,
        &[bind::integer(number), bind::integer(limit)],
    )
}

/// The first rows of kept records above a stamp.
pub fn kept_rows<S: Alter>(
    conn: &mut Connection<S>,
    stamp: u64,
    limit: u64,
) -> Result<Vec<Row>, Error>
    requires stamp { Fits stamp }
    requires limit { Fits limit }
    ensures found { FindsList S.Store conn.old conn.new result (kept_rows stamp limit) }
    ensures seen { SeesOver S.Store conn.old conn.new result (page_rows log.Kept stamp limit) }
    ensures cause { HasReadCauseIn S.Store conn.old conn.new result }
    ensures looked { HasLookCauseIn (HasGood BeginsNine []) S.Store conn.old conn.new result }
{
    read(
        conn,
        SELECT_KEPT_AFTER,
        &[bind::integer(stamp), bind::integer(limit)],
    )
}

/// The row of what is kept under a key.
pub fn found_kept_row<S: Alter>(
    conn: &mut Connection<S>,
    requester: &Requester,
    invoke: Invoke,
) -> Result<Vec<Row>, Error>
    ensures { LooksUpList S.Store conn.old conn.new result (found_kept_row requester.now invoke) }
{
    read(
        conn,
        SELECT_KEPT_OF_REQUEST,
        &[
            bind::text(requester.as_bytes()),
            bind::small(invoke.number()),
        ],
    )
}

pub fn connection_rows<S: Alter>(conn: &mut Connection<S>) -> Result<Vec<Row>, Error>
    ensures found { FindsList S.Store conn.old conn.new result connection_rows }
    ensures seen { SeesOver S.Store conn.old conn.new result (table_rows table.Connections) }
    ensures cause { HasReadCauseIn S.Store conn.old conn.new result }
{
    read(conn, SELECT_CONNECTIONS, &[])
}

/// The further groups, by agent and group.
pub fn further_rows<S: Alter>(conn: &mut Connection<S>) -> Result<Vec<Row>, Error>
    ensures { LooksUpList S.Store conn.old conn.new result further_rows }
{
    read(conn, SELECT_AGENT_GROUPS, &[])
}

/// The first rows of events at a device above a number.
pub fn event_rows_at<S: Alter>(
    conn: &mut Connection<S>,
    device: DeviceId,
    number: u64,
    limit: u64,
) -> Result<Vec<Row>, Error>
    requires number { Fits number }
    requires limit { Fits limit }
    ensures { LooksUpList S.Store conn.old conn.new result (event_rows_at device number limit) }
{
    read(
        conn,
        SELECT_EVENTS_AT_DEVICE,
        &[
            bind::integer(number),
            bind::device(device),
            bind::integer(limit),
        ],
    )
}
