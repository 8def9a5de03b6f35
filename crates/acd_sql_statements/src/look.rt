//! The queries that look at a connection before it is adopted as a book.

ghost use Rattle.std.specs.Prelude.{◌≡◌, [], codes};
ghost use Rattle.std.specs.Str.{bytes_eq};
ghost use Rattle.acd_sql_columns.specs.declared.tables.Log.TheVariants as log;
ghost use Rattle.acd_sql_columns.specs.declared.tables.Table.TheVariants as table;
ghost use Rattle.acd_sql_columns.specs.AnyRows.{has_meta, BeginsAsBook};
ghost use Rattle.acd_sql_statements.specs.ReadsBetween.{LooksAt, IsBookSchema};
ghost use Rattle.acd_sql_statements.specs.Looks.{BeginsNine, HasGood, HasLookCauseIn};
ghost use Rattle.acd_sql_statements.specs.QueryResults.{low_rows, table_rows, versions};

use crate::read::read;
use acd_sql_columns::texts::{
    SELECT_LOW_EVENT, SELECT_LOW_KEPT, SELECT_STANDING_AGENT_GROUPS, SELECT_STANDING_CONNECTIONS,
    SELECT_VERSION,
};
use sqlite::{Alter, Connection, Error, Row};
use sqlite_schema::schema::{Schema, Table};

fn is_meta(table: &Table) -> bool
    ensures { result ≡ bytes_eq table.now.name (codes "meta") }
{
    table.name.as_slice() == b"meta".as_slice()
}

/// Whether a table of any shape has the name `meta`.
#[tactic(auto, unfolding(acd_sql_columns::specs::AnyRows::has_meta))]
pub fn has_meta(schema: &Schema) -> bool
    ensures { result ≡ has_meta schema.now.tables }
{
    schema.tables.as_slice().iter().any(|table| is_meta(table))
}

/// The versions that the table holds.
pub fn version_rows<S: Alter>(conn: &mut Connection<S>) -> Result<Vec<Row>, Error>
    ensures looks { LooksAt S.Store conn.old conn.new result versions }
    ensures looked { HasLookCauseIn (HasGood BeginsAsBook []) S.Store conn.old conn.new result }
{
    read(conn, SELECT_VERSION, &[])
}

/// The rows of connections in the order of the file. Their key isn't the number of a row, so that to put them in its
/// order takes longer than to read them.
pub fn unordered_connection_rows<S: Alter>(conn: &mut Connection<S>) -> Result<Vec<Row>, Error>
    ensures looks { LooksAt S.Store conn.old conn.new result (table_rows table.Connections) }
    ensures looked { HasLookCauseIn (HasGood BeginsNine []) S.Store conn.old conn.new result }
{
    read(conn, SELECT_STANDING_CONNECTIONS, &[])
}

/// The rows of further groups, in the order of the file.
pub fn further_rows<S: Alter>(conn: &mut Connection<S>) -> Result<Vec<Row>, Error>
    ensures looks { LooksAt S.Store conn.old conn.new result (table_rows table.AgentGroups) }
    ensures looked { HasLookCauseIn (HasGood IsBookSchema []) S.Store conn.old conn.new result }
{
    read(conn, SELECT_STANDING_AGENT_GROUPS, &[])
}

/// An event whose number is below 1.
pub(crate) fn low_event_rows<S: Alter>(conn: &mut Connection<S>) -> Result<Vec<Row>, Error>
    ensures looks { LooksAt S.Store conn.old conn.new result (low_rows log.Events) }
    ensures looked { HasLookCauseIn (HasGood BeginsNine []) S.Store conn.old conn.new result }
{
    read(conn, SELECT_LOW_EVENT, &[])
}

/// A kept record whose stamp is below 1.
pub(crate) fn low_kept_rows<S: Alter>(conn: &mut Connection<S>) -> Result<Vec<Row>, Error>
    ensures looks { LooksAt S.Store conn.old conn.new result (low_rows log.Kept) }
    ensures looked { HasLookCauseIn (HasGood BeginsNine []) S.Store conn.old conn.new result }
{
    read(conn, SELECT_LOW_KEPT, &[])
}
