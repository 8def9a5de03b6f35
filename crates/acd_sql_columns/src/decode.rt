//! The records of rows, where each value is in its range.
//!
//! Of an event and of a kept record the number alone can be asked for, where a look at the row is all that is wanted: no record is
//! made then.

ghost use Rattle.std.specs.Prelude.{◌≡◌, option_map, option_and_then, IfOk};
ghost use Rattle.acd_sql_columns.specs.Ranges.{further_of_row, priority_of_row, group_of_row, station_of_row, agent_of_row, call_in, connection_of_row, monitor_of_row, counters_in, event_from, event_in, event_number, request_at, kept_from, kept_in, kept_stamp};
ghost use Rattle.acd_sql_columns.specs.Values.{body_at};

use crate::columns::{
    agent_groups, agents, calls, connections, events, group_priority, groups, meta, monitors, one,
    stations,
};
use crate::meta::Meta;
use crate::relations::{AgentRow, GroupPriority, GroupRow};
use crate::shape::{is_formed, report_in};
use crate::values;
use acd_book::{Kept, Text};
use acd_codec::RequestReader;
use acd_terms::{
    AgentId, CallRecord, Columns, ConnectionRecord, DeviceId, Event, Figures, Limits,
    MonitorRecord, Request, StationRecord,
};
use sqlite::Row;
use std::alloc::{AllocError, Global};

macro_rules! made {
    (($record:ident) $($field:ident)*) => { $record { $($field),* } };
    (($made:expr) $($field:ident)*) => { $made };
}

// The record of a row with these columns alone, whose first has this place.
macro_rules! record {
    ($row:ident $made:tt $first:literal, $($place:literal ($field:ident $(of $part:ident)?: $sort:ident)),*) => {{
        if $row.column_count() != 0 $(+ one!($field))* {
            return None;
        }
        $(let $field = values::$sort($row, $place - $first)?;)*
        Some(made!($made $($field)*))
    }};
}

macro_rules! whole {
    ($row:ident, $table:literal $made:tt, $($place:literal $field:tt $column:literal $type:literal),*) => {
        record!($row $made 1, $($place $field),*)
    };
}

// After the key and the version.
macro_rules! counters {
    ($row:ident, $table:literal $made:tt, $first:literal $of:tt $key:literal $kind:literal, $other:literal $by:tt $second:literal $sort:literal, $($place:literal $field:tt $column:literal $type:literal),*) => {
        record!($row $made 3, $($place $field),*)
    };
}

pub fn group_of_row(row: &Row) -> Option<GroupRow>
    ensures { result ≡ group_of_row row.now }
{
    groups!(whole, row)
}

pub fn station_of_row(row: &Row) -> Option<StationRecord>
    ensures { result ≡ station_of_row row.now }
{
    stations!(whole, row)
}

pub fn agent_of_row(row: &Row) -> Option<AgentRow>
    ensures { result ≡ agent_of_row row.now }
{
    agents!(whole, row)
}

pub fn call_in(row: &Row) -> Option<CallRecord>
    ensures { result ≡ call_in row.now }
{
    calls!(whole, row)
}

pub fn connection_of_row(row: &Row) -> Option<ConnectionRecord>
    ensures { result ≡ connection_of_row row.now }
{
    connections!(whole, row)
}

/// An agent and a group after its first.
pub fn further_of_row(row: &Row) -> Option<(AgentId, DeviceId)>
    ensures { result ≡ further_of_row row.now }
{
    agent_groups!(whole, row)
}

pub fn priority_of_row(row: &Row) -> Option<GroupPriority>
    ensures { result ≡ priority_of_row row.now }
{
    group_priority!(whole, row)
}

pub fn monitor_of_row(row: &Row) -> Option<MonitorRecord>
    ensures { result ≡ monitor_of_row row.now }
{
    monitors!(whole, row)
}

/// The limits and the counters, as they are read.
pub fn counters_in(row: &Row) -> Option<Meta>
    ensures { result ≡ counters_in row.now }
{
    meta!(counters, row)
}

/// The values of the row of an event, before it is asked what its columns say together.
#[derive(Clone, Copy)]
pub struct EventValues {
    pub number: u64,
    pub moment: u32,
    pub columns: Columns,
}

// None where a value is out of its range; what the columns say together isn't asked.
#[tactic(auto, unfolding(crate::specs::Ranges::event_in))]
fn event_values(row: &Row) -> Option<EventValues>
    ensures { option_and_then event_from result ≡ event_in row.now }
{
    events!(whole, row)
}

pub fn event_in(row: &Row) -> Option<Event>
    ensures { result ≡ event_in row.now }
{
    let values = event_values(row)?;
    let report = report_in(&values.columns)?;
    Some(Event {
        number: values.number,
        moment: values.moment,
        report,
    })
}

/// The number of the event that the row represents.
#[tactic(auto, unfolding(crate::specs::Reports::report_in))]
pub fn event_number(row: &Row) -> Option<u64>
    ensures { result ≡ event_number row.now }
{
    let values = event_values(row)?;
    if is_formed(&values.columns) {
        Some(values.number)
    } else {
        None
    }
}

// The values of the row of a kept record, but for its body.
#[derive(Clone, Copy)]
struct KeptHead {
    stamp: u64,
    moment: u32,
    request: Request,
    status: u16,
}

fn body_in(row: &Row) -> Option<&str>
    ensures { option_map (λ t. t.now) result ≡ body_at row.now 6 }
{
    values::body(row, 6)
}

/// Reads the rows of kept records, one after another. It keeps from one to the next the room in which texts are read and written.
#[derive(Drop)]
pub struct KeptReader {
    alloc: Global,
    requests: RequestReader,
}

impl KeptReader {
    pub fn new(alloc: Global) -> KeptReader {
        KeptReader {
            alloc,
            requests: RequestReader::new(alloc),
        }
    }

    #[tactic(auto, unfolding(crate::specs::Ranges::request_at))]
    fn request_in(&mut self, row: &Row) -> Result<Option<Request>, AllocError>
        ensures { IfOk result (λ request. request ≡ request_at row.now) }
    {
        let Some(requester) = values::text(row, 1) else {
            return Ok(None);
        };
        let Some(invoke) = values::whole(row, 2) else {
            return Ok(None);
        };
        let Some(text) = values::text(row, 4) else {
            return Ok(None);
        };
        let Some(request) = self.requests.request_of_text(text)? else {
            return Ok(None);
        };
        let is_key = requester == request.requester.as_bytes()
            && invoke == u64::from(request.invoke.number());
        if is_key { Ok(Some(request)) } else { Ok(None) }
    }

    // None where a value is out of its range, the text isn't that of its request, or the key isn't that of the columns.
    #[tactic(auto, unfolding(crate::specs::Ranges::kept_in))]
    fn head_in(&mut self, row: &Row) -> Result<Option<KeptHead>, AllocError>
        ensures { IfOk result (λ head. option_and_then (kept_from row.now) head ≡ kept_in row.now) }
    {
        if row.column_count() != 7 {
            return Ok(None);
        }
        let Some(stamp) = values::stamp(row, 0) else {
            return Ok(None);
        };
        let Some(moment) = values::moment(row, 3) else {
            return Ok(None);
        };
        let Some(request) = self.request_in(row)? else {
            return Ok(None);
        };
        let Some(status) = values::status(row, 5) else {
            return Ok(None);
        };
        Ok(Some(KeptHead {
            stamp,
            moment,
            request,
            status,
        }))
    }

    /// The stamp of the kept record that the row represents. Its body isn't copied.
    pub fn stamp(&mut self, row: &Row) -> Result<Option<u64>, AllocError>
        ensures { IfOk result (λ stamp. stamp ≡ kept_stamp row.now) }
    {
        let Some(KeptHead { stamp, .. }) = self.head_in(row)? else {
            return Ok(None);
        };
        if body_in(row).is_some() {
            Ok(Some(stamp))
        } else {
            Ok(None)
        }
    }

    /// None where a value is out of its range, the text isn't that of its request, or the key isn't that of the
    /// columns.
    pub fn read(&mut self, row: &Row) -> Result<Option<Kept>, AllocError>
        ensures { IfOk result (λ kept. kept ≡ kept_in row.now) }
    {
        let Some(head) = self.head_in(row)? else {
            return Ok(None);
        };
        let Some(body) = body_in(row) else {
            return Ok(None);
        };
        let body = Text::new(String::from_str(self.alloc, body)?);
        Ok(Some(Kept {
            stamp: head.stamp,
            moment: head.moment,
            request: head.request,
            status: head.status,
            body,
        }))
    }
}
