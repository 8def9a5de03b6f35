//! The row of a record: the values of its columns, as the parameters of the statement that puts it.

ghost use Rattle.std.specs.Prelude.{◌≡◌, IfSome};
ghost use Rattle.sqlite.specs.Values.{bound};
ghost use Rattle.acd_terms.specs.Columns.{columns_of};
ghost use Rattle.acd_sql_columns.specs.Transactions.{Fits, FiguresFitColumns, MetaFits};
ghost use Rattle.acd_sql_columns.specs.Fields.{written_row};
ghost use Rattle.acd_sql_columns.specs.Rows.{group_values, priority_values, station_values, agent_values, call_values, connection_values, monitor_values, event_fields, values_of_event, event_values, meta_values, meta_shown};

use crate::bind::{
    agent, agent_or_null as agent_or_none, agent_state, cause_or_null as cause_or_none,
    connection_state, device, device_or_null as device_or_none, integer as serial,
    integer as stamp, integer as whole, integer_or_null as serial_or_none,
    integer_or_null as stamp_or_none, kind, name, pending_or_null as pending_or_none, priority,
    seconds, small as moment, small_or_null as moment_or_none,
};
use crate::columns::{
    AGENTS, CALLS, CONNECTIONS, EVENTS, GROUP_PRIORITY, GROUPS, META, MONITORS, STATIONS, agents,
    calls, connections, events, group_priority, groups, meta, monitors, stations,
};
use crate::decode::EventValues;
use crate::meta::Meta;
use crate::relations::{AgentRow, GroupPriority, GroupRow};
use acd_terms::{CallRecord, ConnectionRecord, Event, MonitorRecord, StationRecord};
use sqlite::types::ValueRef;

macro_rules! bound {
    (name $($at:tt)*) => { name(&$($at)*) };
    ($sort:ident $($at:tt)*) => { $sort($($at)*) };
}

macro_rules! all {
    ($from:ident, $table:literal $made:tt, $($place:literal ($field:ident $(of $part:ident)?: $sort:ident) $column:literal $type:literal),*) => {
        [$(bound!($sort $from$(.$part)?.$field)),*]
    };
}

// After the key and the version.
macro_rules! counters {
    ($from:ident, $table:literal $made:tt, $first:literal $of:tt $key:literal $kind:literal, $other:literal $by:tt $second:literal $sort:literal, $($rest:tt)*) => {
        all!($from, $table $made, $($rest)*)
    };
}

// With the key and the version.
macro_rules! keyed {
    ($from:ident, $table:literal $made:tt, $first:literal $of:tt $key:literal $kind:literal, $other:literal $by:tt $second:literal $sort:literal, $($place:literal ($field:ident $(of $part:ident)?: $how:ident) $column:literal $type:literal),*) => {
        [whole(1), whole(2), $(bound!($how $from$(.$part)?.$field)),*]
    };
}

pub fn group_values(item: &GroupRow) -> [ValueRef<'_>; GROUPS]
    requires { FiguresFitColumns item.now.figures }
    ensures { bound result ≡ group_values item.now }
{
    groups!(all, item)
}

pub fn priority_values(item: &GroupPriority) -> [ValueRef<'static>; GROUP_PRIORITY]
    ensures { bound result ≡ priority_values item.now }
{
    group_priority!(all, item)
}

pub fn station_values(item: &StationRecord) -> [ValueRef<'static>; STATIONS]
    ensures { bound result ≡ station_values item.now }
{
    stations!(all, item)
}

pub fn agent_values(item: &AgentRow) -> [ValueRef<'_>; AGENTS]
    requires { Fits item.now.stamp }
    ensures { bound result ≡ agent_values item.now }
{
    agents!(all, item)
}

pub fn call_values(item: &CallRecord) -> [ValueRef<'static>; CALLS]
    requires { Fits item.now.call }
    ensures { bound result ≡ call_values item.now }
{
    calls!(all, item)
}

pub fn connection_values(item: &ConnectionRecord) -> [ValueRef<'static>; CONNECTIONS]
    requires call { Fits item.now.call }
    requires place { IfSome item.now.place Fits }
    ensures { bound result ≡ connection_values item.now }
{
    connections!(all, item)
}

pub fn monitor_values(item: &MonitorRecord) -> [ValueRef<'static>; MONITORS]
    requires monitor { Fits item.now.monitor }
    requires after { Fits item.now.after_event }
    ensures { bound result ≡ monitor_values item.now }
{
    monitors!(all, item)
}

fn values_of(event: &Event) -> EventValues
    ensures { result ≡ values_of_event event.now }
{
    EventValues {
        number: event.number,
        moment: event.moment,
        columns: event.report.columns(),
    }
}

fn all_of_event(item: &EventValues) -> [ValueRef<'static>; EVENTS]
    requires number { Fits item.now.number }
    requires call { IfSome item.now.columns.call Fits }
    ensures { bound result ≡ written_row event_fields item.now }
{
    events!(all, item)
}

pub fn event_values(item: &Event) -> [ValueRef<'static>; EVENTS]
    requires number { Fits item.now.number }
    requires call { IfSome (columns_of item.now.report).call Fits }
    ensures { bound result ≡ event_values item.now }
{
    all_of_event(&values_of(item))
}

// Without key and version.
const COUNTERS: usize = META - 2;

/// The limits and the counters, without key and version.
pub fn counters_values(item: &Meta) -> [ValueRef<'static>; COUNTERS]
    requires { MetaFits item.now }
    ensures { bound result ≡ meta_shown item.now }
{
    meta!(counters, item)
}

/// With the key and the version.
pub fn meta_values(item: &Meta) -> [ValueRef<'static>; META]
    requires { MetaFits item.now }
    ensures { bound result ≡ meta_values item.now }
{
    meta!(keyed, item)
}
