//! Reads between transactions: they change nothing, but that a failure may shut the connection.

ghost use Rattle.std.specs.Prelude.{[], ⊤};
ghost use Rattle.sqlite.specs.Held.{state};
ghost use Rattle.sqlite.specs.Values.{bound};
ghost use Rattle.acd_sql_columns.specs.declared.tables.Table.TheVariants as table;
ghost use Rattle.acd_sql_statements.specs.ReadsBetween.{AddsNoStop, AddsNoStopWhere, FindsList, HasReadCauseAt, HasReadCauseIn, IsPlainText, IsUp, QuietIn, SeesEach, SeesOver, SeesShown, ShowsRows};
ghost use Rattle.acd_sql_statements.specs.Looks.{BeginsNine, HasGood, HasLookCauseAt, HasLookCauseIn};
ghost use Rattle.acd_sql_statements.specs.QueryResults.{meta_rows, table_rows};

use acd_sql_columns::texts::SELECT_META;
use sqlite::types::ValueRef;
use sqlite::{Alter, Connection, Error, Row};

/// Finds whether the store still works.
pub fn probe<S: Alter>(conn: &mut Connection<S>) -> Result<(), Error>
    ensures up { IsUp (state S.Store conn.new) result }
    ensures quiet { QuietIn S.Store conn.old conn.new }
    ensures stops { AddsNoStop S.Store conn.old conn.new }
    ensures seen { SeesEach S.Store conn.old conn.new result }
    ensures cause { HasReadCauseIn S.Store conn.old conn.new result }
    ensures looked { HasLookCauseIn (λ _. ⊤) S.Store conn.old conn.new result }
{
    conn.query_row("SELECT 1", &[])?;
    Ok(())
}

/// The rows of a query whose text is a plain one of the book's tables.
pub(crate) fn read<S: Alter>(
    conn: &mut Connection<S>,
    sql: &str,
    params: &[ValueRef<'_>],
) -> Result<Vec<Row>, Error>
    ensures up { IsUp (state S.Store conn.new) result }
    ensures quiet { IsPlainText sql.now → QuietIn S.Store conn.old conn.new }
    ensures stops { AddsNoStopWhere (IsPlainText sql.now) S.Store conn.old conn.new }
    ensures shown { ShowsRows S.Store conn.old conn.new result (sql.now, bound params.now) }
    ensures seen { SeesShown S.Store conn.old conn.new result (sql.now, bound params.now) }
    ensures cause { HasReadCauseAt S.Store conn.old conn.new result (sql.now, bound params.now) }
    ensures looked { HasLookCauseAt S.Store conn.old conn.new result (sql.now, bound params.now) }
{
    conn.query_all(sql, params)
}

/// The row of the limits and the counters.
pub fn meta_rows<S: Alter>(conn: &mut Connection<S>) -> Result<Vec<Row>, Error>
    ensures found { FindsList S.Store conn.old conn.new result meta_rows }
    ensures seen { SeesOver S.Store conn.old conn.new result (table_rows table.Meta) }
    ensures cause { HasReadCauseIn S.Store conn.old conn.new result }
    ensures looked { HasLookCauseIn (HasGood BeginsNine []) S.Store conn.old conn.new result }
{
    read(conn, SELECT_META, &[])
}
