//! Whether a database has the tables of a book, of version 1 or 2, with each value in its range.

ghost use Rattle.std.specs.Prelude.{◌≡◌, ◌≢◌, ◌⊎◌, [], false, IfErr, IfOk, IfSome};
ghost use Rattle.sqlite.specs.Held.{state};
ghost use Rattle.acd_sql_columns.specs.declared.tables.Table.TheVariants as table;
ghost use Rattle.acd_sql_columns.specs.AnyRows.{are_good, schema_of, BeginsAsBook, IsCanonical};
ghost use Rattle.acd_sql_columns.specs.Schema.{book_schema};
ghost use Rattle.acd_sql_columns.specs.DatabaseView.{HasLooked};
ghost use Rattle.acd_sql_columns.specs.Transactions.{Fits};
ghost use Rattle.acd_sql_schema.specs.Inspection.{adopt_fault_of, bad_row, bad_table, found_in_rows, good_log, good_pages, good_table, last_good, log_page, misplaced_in, number_if_good, ranks_misplaced, tables_of, version_read_in, HasCanonical, HasCanonicalOf, HasCanonicalTable, HasCanonicalTables, HasGoodTables, HasNoRise, IsAdoptStoreFault, IsFound, IsLike, IsLikeFirst, IsLogPage, IsPageAbove, IsPaged, IsSchemaOf, IsVersionRead, PageFits, SeesNow};
ghost use Rattle.acd_sql_statements.specs.ReadsBetween.{IsBookSchema, SeesOver};
ghost use Rattle.acd_sql_statements.specs.StoreFailures.{IsMemory};
ghost use Rattle.acd_sql_statements.specs.Looks.{over, BeginsNine, HasGood, HasLookCauseIn};

use crate::create::set_up_empty;
use crate::fault::{AdoptFault, Found};
use crate::verdict::{Likeness, Page, VersionRead};
use acd_sql_columns::decode::{
    KeptReader, connection_of_row, counters_in, event_number, further_of_row,
};
use acd_sql_columns::{AgentRow, GroupPriority, GroupRow, Log, Table, Version, values};
use acd_sql_statements::fitting::{number_of, too_large};
use acd_sql_statements::look::{further_rows, has_meta, unordered_connection_rows, version_rows};
use acd_sql_statements::placed::{are_further_placed, are_priorities_placed};
use acd_sql_statements::read::{meta_rows, probe};
use acd_sql_statements::same::{is_same_first, is_same_schema};
use acd_sql_statements::select::is_good;
use acd_sql_statements::tables::{low_rows, rows_above};
use acd_terms::{CallRecord, MonitorRecord, StationRecord};
use sqlite::{Alter, Connection, Error, ErrorCode, MemStore, Row};
use sqlite_schema::schema::Schema;
use std::alloc::Global;

#[tactic(auto, unfolding(acd_sql_columns::specs::AnyRows::are_good))]
fn are_counters(rows: &[Row]) -> bool
    ensures { result ≡ are_good table.Meta rows.now }
{
    rows.iter().all(|row| counters_in(row).is_some())
}

#[tactic(auto, unfolding(acd_sql_columns::specs::AnyRows::are_good))]
fn are_connections(rows: &[Row]) -> bool
    ensures { result ≡ are_good table.Connections rows.now }
{
    rows.iter().all(|row| connection_of_row(row).is_some())
}

// Whether the limits and the counters are in their ranges.
fn is_good_meta<S: Alter>(conn: &mut Connection<S>) -> Result<bool, Error>
    ensures seen { SeesOver S.Store conn.old conn.new result (good_table table.Meta) }
    ensures looked { HasLookCauseIn (HasGood BeginsNine []) S.Store conn.old conn.new result }
{
    let rows = meta_rows(conn)?;
    Ok(are_counters(&rows))
}

// Whether each value of the connections is in its range.
fn are_good_connections<S: Alter>(conn: &mut Connection<S>) -> Result<bool, Error>
    ensures seen { SeesOver S.Store conn.old conn.new result (good_table table.Connections) }
    ensures looked { HasLookCauseIn (HasGood BeginsNine []) S.Store conn.old conn.new result }
{
    let rows = unordered_connection_rows(conn)?;
    Ok(are_connections(&rows))
}

#[tactic(auto, unfolding(acd_sql_columns::specs::AnyRows::are_good))]
fn are_further(rows: &[Row]) -> bool
    ensures { result ≡ are_good table.AgentGroups rows.now }
{
    rows.iter().all(|row| further_of_row(row).is_some())
}

// Whether each value of the further groups is in its range.
fn are_good_further<S: Alter>(conn: &mut Connection<S>) -> Result<bool, Error>
    ensures seen { SeesOver S.Store conn.old conn.new result (good_table table.AgentGroups) }
    ensures looked { HasLookCauseIn (HasGood IsBookSchema []) S.Store conn.old conn.new result }
{
    let rows = further_rows(conn)?;
    Ok(are_further(&rows))
}

// The number of a row where each of its values is in its range.
fn number_if_good(kept: &mut KeptReader, log: Log, row: &Row) -> Result<Option<u64>, Error>
    ensures number { IfOk result (λ number. number ≡ number_if_good log row.now) }
    ensures lacks { IfErr result IsMemory }
{
    match log {
        Log::Events => Ok(event_number(row)),
        Log::Kept => match kept.stamp(row) {
            Ok(stamp) => Ok(stamp),
            Err(_) => Err(Error::SqliteFailure(ErrorCode::OutOfMemory)),
        },
    }
}

// The number of the last row where all are good.
fn last_good(
    kept: &mut KeptReader,
    log: Log,
    number: u64,
    rows: &[Row],
) -> Result<Option<u64>, Error>
    requires { Fits number }
    ensures last { IfOk result (λ last. last ≡ last_good log number rows.now) }
    ensures fits { IfOk result (λ last. IfSome last Fits) }
    ensures lacks { IfErr result IsMemory }
{
    let mut last = number;
    for row in rows {
        // It is read so that its range is known.
        let _fits = number_of(row);
        let next = number_if_good(kept, log, row)?;
        match next {
            Some(next) => last = next,
            None => return Ok(None),
        }
    }
    Ok(Some(last))
}

// What the rows above a number give.
fn page_of(kept: &mut KeptReader, log: Log, number: u64, rows: &[Row]) -> Result<Page, Error>
    requires { Fits number }
    ensures finds { IfOk result (λ page. IsLogPage log number rows.now page) }
    ensures fits { IfOk result (λ page. PageFits page) }
    ensures rises { IfOk result (λ page. IsPageAbove number page) }
    ensures lacks { IfErr result (λ e. IsMemory e ⊎ HasNoRise log number rows.now) }
{
    if rows.is_empty() {
        return Ok(Page::Last);
    }
    let last = last_good(kept, log, number, rows)?;
    match last {
        Some(last) if last > number => Ok(Page::More(last)),
        Some(_) => Err(too_large()),
        None => Ok(Page::Bad),
    }
}

// The page of a log above a number.
fn page_after<S: Alter>(
    kept: &mut KeptReader,
    conn: &mut Connection<S>,
    log: Log,
    number: u64,
) -> Result<Page, Error>
    requires number { Fits number }
    ensures seen { SeesOver S.Store conn.old conn.new result (log_page log number) }
    ensures fits { IfOk result (λ page. PageFits page) }
    ensures rises { IfOk result (λ page. IsPageAbove number page) }
    ensures looked { HasLookCauseIn (IsPaged log) S.Store conn.old conn.new result }
{
    let rows = rows_above(log, conn, number)?;
    page_of(kept, log, number, &rows)
}

// Whether each value of a row from 1 on is in its range.
fn are_pages_good<S: Alter>(
    kept: &mut KeptReader,
    conn: &mut Connection<S>,
    log: Log,
) -> Result<bool, Error>
    ensures seen { SeesOver S.Store conn.old conn.new result (good_pages log) }
    ensures looked { HasLookCauseIn (IsPaged log) S.Store conn.old conn.new result }
{
    let mut number = 0;
    loop {
        let page = page_after(kept, conn, log, number)?;
        match page {
            Page::Bad => return Ok(false),
            Page::Last => return Ok(true),
            Page::More(last) => number = last,
        }
    }
}

// Whether each value of the log is in its range.
fn is_good_log<S: Alter>(
    kept: &mut KeptReader,
    conn: &mut Connection<S>,
    log: Log,
) -> Result<bool, Error>
    ensures seen { SeesOver S.Store conn.old conn.new result (good_log log) }
    ensures looked { HasLookCauseIn (HasCanonical BeginsNine) S.Store conn.old conn.new result }
{
    let low = low_rows(log, conn)?;
    if low.is_empty() {
        are_pages_good(kept, conn, log)
    } else {
        Ok(false)
    }
}

// Whether each value of the table is in its range.
fn is_good_table<S: Alter>(
    kept: &mut KeptReader,
    conn: &mut Connection<S>,
    table: Table,
) -> Result<bool, Error>
    ensures seen { SeesOver S.Store conn.old conn.new result (good_table table) }
    ensures looked { HasLookCauseIn (HasCanonicalTable table) S.Store conn.old conn.new result }
{
    match table {
        Table::Meta => is_good_meta(conn),
        Table::Groups => is_good::<GroupRow, S>(conn),
        Table::Stations => is_good::<StationRecord, S>(conn),
        Table::Agents => is_good::<AgentRow, S>(conn),
        Table::Calls => is_good::<CallRecord, S>(conn),
        Table::Connections => are_good_connections(conn),
        Table::Monitors => is_good::<MonitorRecord, S>(conn),
        Table::Events => is_good_log(kept, conn, Log::Events),
        Table::Kept => is_good_log(kept, conn, Log::Kept),
        Table::AgentGroups => are_good_further(conn),
        Table::GroupPriority => is_good::<GroupPriority, S>(conn),
    }
}

// The first of the tables that has a value out of its range.
fn bad_table<S: Alter>(
    kept: &mut KeptReader,
    conn: &mut Connection<S>,
    tables: &[Table],
) -> Result<Option<Table>, Error>
    ensures seen { SeesOver S.Store conn.old conn.new result (bad_table tables.now) }
    ensures looked { HasLookCauseIn (HasCanonicalTables tables.now)
        S.Store conn.old conn.new result }
{
    for table in tables {
        let good = is_good_table(kept, conn, *table)?;
        if !good {
            return Ok(Some(*table));
        }
    }
    Ok(None)
}

// The tables of each version, in the order in which they are looked at.
const TABLES: [Table; 11] = [
    Table::Meta,
    Table::Groups,
    Table::Stations,
    Table::Agents,
    Table::Calls,
    Table::Connections,
    Table::Monitors,
    Table::Events,
    Table::Kept,
    Table::AgentGroups,
    Table::GroupPriority,
];

// The tables of a version.
fn tables_of(version: Version) -> &'static [Table]
    ensures { result.now ≡ tables_of version }
{
    match version {
        Version::First => &TABLES[..9],
        Version::Second => &TABLES,
    }
}

// Further groups and priorities that don't belong to the rows beside them.
fn misplaced<S: Alter>(
    alloc: Global,
    conn: &mut Connection<S>,
    version: Version,
) -> Result<Option<AdoptFault>, Error>
    ensures seen { SeesOver S.Store conn.old conn.new result (misplaced_in version) }
    ensures looked { HasLookCauseIn (HasGoodTables version) S.Store conn.old conn.new result }
{
    match version {
        Version::First => Ok(None),
        Version::Second => found_misplaced(alloc, conn),
    }
}

fn found_misplaced<S: Alter>(
    alloc: Global,
    conn: &mut Connection<S>,
) -> Result<Option<AdoptFault>, Error>
    ensures seen { SeesOver S.Store conn.old conn.new result (misplaced_in Version.Second) }
    ensures looked { HasLookCauseIn (HasGoodTables Version.Second)
        S.Store conn.old conn.new result }
{
    let placed = are_further_placed(alloc, conn)?;
    if placed {
        return ranks_misplaced(alloc, conn);
    }
    Ok(Some(AdoptFault::BadRow(Table::AgentGroups)))
}

// The same of priorities alone.
fn ranks_misplaced<S: Alter>(
    alloc: Global,
    conn: &mut Connection<S>,
) -> Result<Option<AdoptFault>, Error>
    ensures seen { SeesOver S.Store conn.old conn.new result ranks_misplaced }
    ensures looked { HasLookCauseIn (HasGoodTables Version.Second)
        S.Store conn.old conn.new result }
{
    let placed = are_priorities_placed(alloc, conn)?;
    if placed {
        return Ok(None);
    }
    Ok(Some(AdoptFault::BadRow(Table::GroupPriority)))
}

// The first fault in the tables of a book of the version.
fn bad_row<S: Alter>(
    alloc: Global,
    conn: &mut Connection<S>,
    version: Version,
) -> Result<Option<AdoptFault>, Error>
    ensures seen { SeesOver S.Store conn.old conn.new result (bad_row version) }
    ensures looked { HasLookCauseIn (HasCanonicalOf version) S.Store conn.old conn.new result }
{
    let mut kept = KeptReader::new(alloc);
    let bad = bad_table(&mut kept, conn, tables_of(version))?;
    match bad {
        Some(table) => Ok(Some(AdoptFault::BadRow(table))),
        None => misplaced(alloc, conn, version),
    }
}

// What the rows of versions give.
fn version_read_in(rows: &[Row]) -> VersionRead
    ensures { result ≡ version_read_in rows.now }
{
    if rows.is_empty() {
        return VersionRead::Faulty(AdoptFault::WrongVersion(0));
    }
    match values::whole(&rows[0], 0) {
        Some(1) => VersionRead::Of(Version::First),
        Some(2) => VersionRead::Of(Version::Second),
        Some(version) => VersionRead::Faulty(AdoptFault::WrongVersion(version)),
        None => VersionRead::Faulty(AdoptFault::BadRow(Table::Meta)),
    }
}

fn version_read<S: Alter>(conn: &mut Connection<S>) -> Result<VersionRead, Error>
    ensures seen { SeesOver S.Store conn.old conn.new result (over BeginsAsBook IsVersionRead) }
    ensures looked { HasLookCauseIn (HasGood BeginsAsBook []) S.Store conn.old conn.new result }
{
    let rows = version_rows(conn)?;
    Ok(version_read_in(&rows))
}

// The tables of a new book of the version, in memory.
fn tables_in_memory(alloc: Global, version: Version) -> Result<Connection<MemStore>, Error>
    ensures made { IfOk result (λ conn. conn.schema ≡ schema_of version) }
    ensures lacks { IfErr result IsMemory }
{
    match Connection::open_in_memory(alloc) {
        Ok(mut conn) => {
            set_up_empty(&mut conn, version)?;
            Ok(conn)
        }
        Err(_) => Err(Error::SqliteFailure(ErrorCode::OutOfMemory)),
    }
}

// How far the tables are those of an old book.
fn compared_to_old(alloc: Global, schema: &Schema) -> Result<Likeness, Error>
    ensures like { schema.now ≢ book_schema → IfOk result (λ likeness. IsLike schema.now likeness) }
    ensures lacks { IfErr result IsMemory }
{
    let book = tables_in_memory(alloc, Version::First)?;
    let of_book = book.schema();
    if is_same_schema(schema, of_book) {
        return Ok(Likeness::Whole(Version::First));
    }
    if is_same_first(schema.tables.as_slice(), of_book.tables.as_slice()) {
        return Ok(Likeness::First);
    }
    Ok(Likeness::Other)
}

// How far the tables are those of a new book, or of an old one.
fn compared(alloc: Global, schema: &Schema) -> Result<Likeness, Error>
    ensures like { IfOk result (λ likeness. IsLike schema.now likeness) }
    ensures lacks { IfErr result IsMemory }
{
    let book = tables_in_memory(alloc, Version::Second)?;
    if is_same_schema(schema, book.schema()) {
        return Ok(Likeness::Whole(Version::Second));
    }
    compared_to_old(alloc, schema)
}

// Why a database whose first table alone is that of a book isn't adopted.
fn found_in_first<S: Alter>(conn: &mut Connection<S>) -> Result<Found, Error>
    ensures seen { SeesOver S.Store conn.old conn.new result (over IsLikeFirst IsFound) }
    ensures looked { HasLookCauseIn (HasGood BeginsAsBook []) S.Store conn.old conn.new result }
{
    match version_read(conn)? {
        VersionRead::Faulty(fault) => Ok(Found::Fault(fault)),
        VersionRead::Of(_) => Ok(Found::Fault(AdoptFault::Store)),
    }
}

// What the rows give of tables of a version that was read.
fn found_in_rows<S: Alter>(
    alloc: Global,
    conn: &mut Connection<S>,
    version: Version,
) -> Result<Found, Error>
    ensures seen { SeesOver S.Store conn.old conn.new result (found_in_rows version) }
    ensures looked { HasLookCauseIn (HasCanonicalOf version) S.Store conn.old conn.new result }
{
    match bad_row(alloc, conn, version)? {
        Some(fault) => Ok(Found::Fault(fault)),
        None => Ok(Found::Book(version)),
    }
}

// What is found where the tables are those of a version: another that is read is no book's.
fn found_in_whole<S: Alter>(
    alloc: Global,
    conn: &mut Connection<S>,
    version: Version,
) -> Result<Found, Error>
    ensures seen { SeesOver S.Store conn.old conn.new result (over (IsSchemaOf version) IsFound) }
    ensures looked { HasLookCauseIn (HasCanonicalOf version) S.Store conn.old conn.new result }
{
    let read = version_read(conn)?;
    match read {
        VersionRead::Faulty(fault) => Ok(Found::Fault(fault)),
        VersionRead::Of(other) if other == version => found_in_rows(alloc, conn, version),
        VersionRead::Of(_) => Ok(Found::Fault(AdoptFault::Store)),
    }
}

// What is found where the store works.
fn found_in<S: Alter>(alloc: Global, conn: &mut Connection<S>) -> Result<Found, Error>
    ensures seen { SeesNow S.Store conn.old conn.new result IsFound }
    ensures looked { HasLookCauseIn IsCanonical S.Store conn.old conn.new result }
{
    if !has_meta(conn.schema()) {
        return Ok(Found::Fault(AdoptFault::WrongVersion(0)));
    }
    let likeness = compared(alloc, conn.schema())?;
    match likeness {
        Likeness::Whole(version) => found_in_whole(alloc, conn, version),
        Likeness::First => found_in_first(conn),
        Likeness::Other => Ok(Found::Fault(AdoptFault::Store)),
    }
}

/// Whether a connection holds a book, and of which version, or else why it isn't adopted. Nothing is changed.
pub fn look_over<S: Alter>(alloc: Global, conn: &mut Connection<S>) -> Result<Found, Error>
    requires { conn.old.in_transaction ≡ false }
    ensures looked { HasLooked (state S.Store conn.old) (state S.Store conn.new) result IsFound }
    ensures cause { HasLookCauseIn IsCanonical S.Store conn.old conn.new result }
{
    // The promises of these two hold of the connection before anything is read; their answers aren't needed.
    let _settled = conn.is_autocommit();
    let _obeyed = conn.schema();
    probe(conn)?;
    found_in(alloc, conn)
}

/// The fault of a look that failed. Want of memory is no failure of the store.
pub fn fault_of(error: Error) -> AdoptFault
    ensures cause { result ≡ adopt_fault_of error }
    ensures store { IsAdoptStoreFault result }
{
    match error {
        Error::SqliteFailure(ErrorCode::OutOfMemory) => AdoptFault::NoMemory,
        _ => AdoptFault::Store,
    }
}
