//! Reads between transactions, as records. A row with a value out of its range is a failure of the store.

ghost use Rattle.std.specs.Prelude.{◌≡◌, ◌++◌, ◌∷◌, [], Option, Some, map, IfErr, IfOk, OnOk};
ghost use Rattle.sqlite_value.specs.Order.{Row as Values};
ghost use Rattle.acd_sql_columns.specs.Relations.{meta_of};
ghost use Rattle.acd_sql_columns.specs.Rows.{meta_shown};
ghost use Rattle.acd_sql_columns.specs.declared.meta.Meta.{Meta as MetaRow};
ghost use Rattle.acd_sql_statements.specs.StoreFailures.{IsMemory};
ghost use Rattle.acd_sql_statements.specs.ReadFailures.{FailsToDecode, HasBadMeta, IsFirst};
ghost use Rattle.acd_sql_columns.specs.Ranges.{further_of_row, connection_of_row, monitor_of_row, event_in, kept_in};
ghost use Rattle.acd_sql_statements.specs.ReadsBetween.{LooksUp, LooksUpItem, LooksUpList};
ghost use Rattle.acd_sql_statements.specs.QueryResults.{rows_joined, IsPlan, IsTraffic};

use crate::query::connection_rows;
use crate::read::meta_rows;
use crate::{plan, select};
use acd_book::Kept;
use acd_sql_columns::decode::KeptReader;
use acd_sql_columns::{Meta, decode};
use acd_terms::{
    AgentId, AgentRecord, CallRecord, ConnectionRecord, DeviceId, Event, GroupRecord, Listed,
    MonitorRecord, Rows, StationRecord,
};
use sqlite::{Alter, Connection, Error, ErrorCode, Row};
use std::alloc::{AllocError, Global};

type Plan = (Vec<GroupRecord>, Vec<StationRecord>, Vec<AgentRecord>);

type Traffic = (Vec<CallRecord>, Vec<ConnectionRecord>, Vec<MonitorRecord>);

/// A record that a row represents, where each value is in its range.
pub(crate) trait Decoded: Drop {
    /// What is kept from one row to the next.
    type Reader: Drop;

    ghost in_row: { Values → Option Self };

    fn reader(alloc: Global) -> Self::Reader;

    fn decode(reader: &mut Self::Reader, row: &Row) -> Result<Option<Self>, AllocError>
        ensures { IfOk result (λ found. found ≡ in_row row.now) };
}

impl Decoded for ConnectionRecord {
    type Reader = ();

    ghost in_row = { connection_of_row };

    fn reader(_alloc: Global) {}

    fn decode(_reader: &mut (), row: &Row) -> Result<Option<ConnectionRecord>, AllocError> {
        Ok(decode::connection_of_row(row))
    }
}

// An agent and a group after its first.
impl Decoded for (AgentId, DeviceId) {
    type Reader = ();

    ghost in_row = { further_of_row };

    fn reader(_alloc: Global) {}

    fn decode(_reader: &mut (), row: &Row) -> Result<Option<(AgentId, DeviceId)>, AllocError> {
        Ok(decode::further_of_row(row))
    }
}

impl Decoded for MonitorRecord {
    type Reader = ();

    ghost in_row = { monitor_of_row };

    fn reader(_alloc: Global) {}

    fn decode(_reader: &mut (), row: &Row) -> Result<Option<MonitorRecord>, AllocError> {
        Ok(decode::monitor_of_row(row))
    }
}

impl Decoded for Event {
    type Reader = ();

    ghost in_row = { event_in };

    fn reader(_alloc: Global) {}

    fn decode(_reader: &mut (), row: &Row) -> Result<Option<Event>, AllocError> {
        Ok(decode::event_in(row))
    }
}

impl Decoded for Kept {
    type Reader = KeptReader;

    ghost in_row = { kept_in };

    fn reader(alloc: Global) -> KeptReader {
        KeptReader::new(alloc)
    }

    fn decode(reader: &mut KeptReader, row: &Row) -> Result<Option<Kept>, AllocError> {
        reader.read(row)
    }
}

fn read_one<R: Decoded>(reader: &mut R::Reader, row: &Row) -> Result<R, Error>
    ensures one { IfOk result (λ one. Some one ≡ R.in_row row.now) }
    ensures bad { IfErr result (FailsToDecode R.in_row (row.now ∷ [])) }
{
    match R::decode(reader, row) {
        Ok(Some(record)) => Ok(record),
        Ok(None) => Err(Error::SqliteFailure(ErrorCode::DatabaseCorrupt)),
        Err(_) => Err(Error::SqliteFailure(ErrorCode::OutOfMemory)),
    }
}

/// Adds a record after others.
pub(crate) fn add<R: Drop>(records: &mut Vec<R>, one: R) -> Result<(), Error>
    ensures added { OnOk result (records.new.items ≡ records.old.items ++ one ∷ []) }
    ensures full { IfErr result IsMemory }
{
    match records.push(one) {
        Ok(()) => Ok(()),
        Err(_) => Err(Error::SqliteFailure(ErrorCode::OutOfMemory)),
    }
}

/// The records of rows, in their order.
pub(crate) fn records<R: Decoded>(alloc: Global, rows: &[Row]) -> Result<Vec<R>, Error>
    ensures records { IfOk result (λ records. map Some records.items ≡ map R.in_row rows.now) }
    ensures bad { IfErr result (FailsToDecode R.in_row rows.now) }
{
    let mut reader = R::reader(alloc);
    let mut records = Vec::new(alloc);
    for row in rows {
        let one = read_one(&mut reader, row)?;
        add(&mut records, one)?;
    }
    Ok(records)
}

/// The record of the first row, if there is one.
pub(crate) fn first<R: Decoded>(alloc: Global, rows: &[Row]) -> Result<Option<R>, Error>
    ensures found { IfOk result (IsFirst R.in_row rows.now) }
    ensures bad { IfErr result (FailsToDecode R.in_row rows.now) }
{
    match rows.first() {
        Some(row) => Ok(Some(read_one(&mut R::reader(alloc), row)?)),
        None => Ok(None),
    }
}

// The content of the table's one row. Neither more rows nor a value out of its range is the book's.
fn only_meta(rows: &[Row]) -> Result<Meta, Error>
    ensures found { IfOk result (λ meta. (m : MetaRow) → rows.now ≡ meta_shown m ∷ [] → meta ≡ m) }
    ensures bad { IfErr result (λ e. HasBadMeta rows.now) }
{
    match rows {
        [row] => match decode::counters_in(row) {
            Some(meta) => Ok(meta),
            None => Err(Error::SqliteFailure(ErrorCode::DatabaseCorrupt)),
        },
        _ => Err(Error::QueryReturnedNoRows),
    }
}

/// The limits and the counters.
pub fn read_meta<S: Alter>(conn: &mut Connection<S>) -> Result<Meta, Error>
    ensures { LooksUpItem S.Store conn.old conn.new result (λ c. meta_of c.rows) }
{
    let rows = meta_rows(conn)?;
    only_meta(&rows)
}

fn connections<S: Alter>(
    alloc: Global,
    conn: &mut Connection<S>,
) -> Result<Vec<ConnectionRecord>, Error>
    ensures { LooksUpList S.Store conn.old conn.new result (λ c. c.rows.connections) }
{
    let rows = connection_rows(conn)?;
    records(alloc, &rows)
}

// The groups, the stations and the agents.
fn planned<S: Alter>(alloc: Global, conn: &mut Connection<S>) -> Result<Plan, Error>
    ensures { LooksUp S.Store conn.old conn.new result IsPlan }
{
    let groups = plan::groups(alloc, conn)?;
    let stations = select::records::<StationRecord, S>(alloc, conn)?;
    let agents = plan::agents(alloc, conn)?;
    Ok((groups, stations, agents))
}

// The calls, the connections and the monitors.
fn traffic<S: Alter>(alloc: Global, conn: &mut Connection<S>) -> Result<Traffic, Error>
    ensures { LooksUp S.Store conn.old conn.new result IsTraffic }
{
    let calls = select::records::<CallRecord, S>(alloc, conn)?;
    let connections = connections(alloc, conn)?;
    let monitors = select::records::<MonitorRecord, S>(alloc, conn)?;
    Ok((calls, connections, monitors))
}

fn joined(meta: Meta, plan: Plan, traffic: Traffic) -> Rows
    ensures { result ≡ rows_joined meta plan traffic }
{
    let (groups, stations, agents) = plan;
    let (calls, connections, monitors) = traffic;
    Rows {
        limits: meta.limits,
        groups: Listed::new(groups),
        stations: Listed::new(stations),
        agents: Listed::new(agents),
        calls: Listed::new(calls),
        connections: Listed::new(connections),
        monitors: Listed::new(monitors),
        last_stamp: meta.last_stamp,
        last_moment: meta.last_moment,
        last_call: meta.last_call,
        last_monitor: meta.last_monitor,
        last_event: meta.last_event,
    }
}

/// The limits, the tables and the counters.
pub fn rows<S: Alter>(alloc: Global, conn: &mut Connection<S>) -> Result<Rows, Error>
    ensures { LooksUpItem S.Store conn.old conn.new result (λ c. c.rows) }
{
    let meta = read_meta(conn)?;
    let planned = planned(alloc, conn)?;
    let live = traffic(alloc, conn)?;
    Ok(joined(meta, planned, live))
}
