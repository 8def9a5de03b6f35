//! Reads of a whole table between transactions.

ghost use Rattle.std.specs.Prelude.{◌≡◌, ◌∷◌, [], Some, map, IfErr, IfOk, IsSome};
ghost use Rattle.acd_sql_columns.specs.Relations.{relations_of};
ghost use Rattle.acd_sql_columns.specs.Descriptions.{are_read, the_text};
ghost use Rattle.acd_sql_statements.specs.ReadFailures.{FailsToDecode};
ghost use Rattle.acd_sql_statements.specs.ReadsBetween.{FindsList, HasReadCauseAt, LooksAt, SeesOver};
ghost use Rattle.acd_sql_statements.specs.QueryResults.{described_rows, good_there, records_there, rows_there, HasRecordsCause, HasRecordsLookCause, HasRowsLookCause};

use crate::read::read;
use crate::reads::add;
use crate::stored::Stored;
use sqlite::{Alter, Connection, Error, ErrorCode, Row};
use std::alloc::Global;

fn select_text<R: Stored>() -> &'static str
    requires { IsSome R.descr.select }
    ensures { result.now ≡ the_text R.descr.select }
{
    R::texts().select.unwrap()
}

/// The rows of a table, in the order of their keys.
pub fn rows<R: Stored, S: Alter>(conn: &mut Connection<S>) -> Result<Vec<Row>, Error>
    requires selects { IsSome R.descr.select }
    ensures found { FindsList S.Store conn.old conn.new result (described_rows R.descr) }
    ensures seen { SeesOver S.Store conn.old conn.new result (rows_there R.descr) }
    ensures cause { HasReadCauseAt S.Store conn.old conn.new result (the_text R.descr.select, []) }
    ensures looked { HasRowsLookCause R.descr S.Store conn.old conn.new result }
{
    read(conn, select_text::<R>(), &[])
}

fn read_one<R: Stored>(row: &Row) -> Result<R, Error>
    ensures one { IfOk result (λ one. Some one ≡ R.descr.in_row row.now) }
    ensures bad { IfErr result (FailsToDecode R.descr.in_row (row.now ∷ [])) }
{
    match R::decode(row) {
        Some(record) => Ok(record),
        None => Err(Error::SqliteFailure(ErrorCode::DatabaseCorrupt)),
    }
}

fn records_of<R: Stored>(alloc: Global, rows: &[Row]) -> Result<Vec<R>, Error>
    ensures records { IfOk result
        (λ records. map Some records.items ≡ map R.descr.in_row rows.now) }
    ensures bad { IfErr result (FailsToDecode R.descr.in_row rows.now) }
{
    let mut records = Vec::new(alloc);
    for row in rows {
        let one = read_one(row)?;
        add(&mut records, one)?;
    }
    Ok(records)
}

/// The records of a table. A row with a value out of its range is a failure of the store.
pub fn records<R: Stored, S: Alter>(
    alloc: Global,
    conn: &mut Connection<S>,
) -> Result<Vec<R>, Error>
    requires selects { IsSome R.descr.select }
    ensures found { FindsList S.Store conn.old conn.new result
        (λ c. R.descr.records (relations_of c)) }
    ensures seen { SeesOver S.Store conn.old conn.new result (records_there R.descr) }
    ensures cause { HasRecordsCause R.descr S.Store conn.old conn.new result }
    ensures looked { HasRecordsLookCause R.descr S.Store conn.old conn.new result }
{
    let rows = rows::<R, S>(conn)?;
    records_of(alloc, &rows)
}

#[tactic(auto, unfolding(acd_sql_columns::specs::Descriptions::are_read))]
fn are_read<R: Stored>(rows: &[Row]) -> bool
    ensures { result ≡ are_read R.descr rows.now }
{
    rows.iter().all(|row| R::decode(row).is_some())
}

/// Whether each value of a table is in its range.
pub fn is_good<R: Stored, S: Alter>(conn: &mut Connection<S>) -> Result<bool, Error>
    requires selects { IsSome R.descr.select }
    ensures looks { LooksAt S.Store conn.old conn.new result (good_there R.descr) }
    ensures looked { HasRowsLookCause R.descr S.Store conn.old conn.new result }
{
    let rows = rows::<R, S>(conn)?;
    Ok(are_read::<R>(&rows))
}
