//! The texts of the statements and queries: a table's macro of `columns` is handed the macro of a text.

use crate::columns::{
    agent_groups, agents, calls, connections, events, group_priority, groups, kept, meta, monitors,
    stations,
};

/// The texts of a table: of the statement that puts a row and, where there is one, of those that change a row and take one out, and of the
/// query of all rows.
#[derive(Clone, Copy)]
pub struct Texts {
    pub insert: &'static str,
    pub update: Option<&'static str>,
    pub delete: Option<&'static str>,
    pub select: Option<&'static str>,
}

macro_rules! create {
    ($table:literal $made:tt, $first:literal $of:tt $key:literal $kind:literal $(, $value:literal $field:tt $column:literal $type:literal)*) => {
        concat!("CREATE TABLE ", $table, " (", $key, " ", $kind $(, ", ", $column, " ", $type)*, ") STRICT")
    };
}

macro_rules! insert {
    ($table:literal $made:tt, $first:literal $of:tt $key:literal $kind:literal $(, $value:literal $field:tt $column:literal $type:literal)*) => {
        concat!("INSERT INTO ", $table, " (", $key $(, ", ", $column)*, ") VALUES (?", $first $(, ", ?", $value)*, ")")
    };
}

macro_rules! update {
    ($table:literal $made:tt, $first:literal $of:tt $key:literal $kind:literal, $other:literal $by:tt $second:literal $sort:literal $(, $value:literal $field:tt $column:literal $type:literal)*) => {
        concat!("UPDATE ", $table, " SET ", $second, " = ?", $other $(, ", ", $column, " = ?", $value)*, " WHERE ", $key, " = ?", $first)
    };
}

macro_rules! delete {
    ($table:literal $made:tt, $first:literal $of:tt $key:literal $kind:literal $(, $value:literal $field:tt $column:literal $type:literal)*) => {
        concat!("DELETE FROM ", $table, " WHERE ", $key, " = ?", $first)
    };
}

// the rows up to a number
macro_rules! delete_up_to {
    ($table:literal $made:tt, $first:literal $of:tt $key:literal $kind:literal $(, $value:literal $field:tt $column:literal $type:literal)*) => {
        concat!("DELETE FROM ", $table, " WHERE ", $key, " <= ?1")
    };
}

macro_rules! select {
    ($table:literal $made:tt, $first:literal $of:tt $key:literal $kind:literal $(, $value:literal $field:tt $column:literal $type:literal)*) => {
        concat!("SELECT ", $key $(, ", ", $column)*, " FROM ", $table, " ORDER BY ", $key)
    };
}

// one row, by its key
macro_rules! one {
    ($table:literal $made:tt, $first:literal $of:tt $key:literal $kind:literal $(, $value:literal $field:tt $column:literal $type:literal)*) => {
        concat!("SELECT ", $key $(, ", ", $column)*, " FROM ", $table, " WHERE ", $key, " = ?1 ORDER BY ", $key, " LIMIT 1")
    };
}

// the first rows above a number
macro_rules! page {
    ($table:literal $made:tt, $first:literal $of:tt $key:literal $kind:literal $(, $value:literal $field:tt $column:literal $type:literal)*) => {
        concat!("SELECT ", $key $(, ", ", $column)*, " FROM ", $table, " WHERE ", $key, " > ?1 ORDER BY ", $key, " LIMIT ?2")
    };
}

// a row whose number is below 1
macro_rules! low {
    ($table:literal $made:tt, $first:literal $of:tt $key:literal $kind:literal $(, $value:literal $field:tt $column:literal $type:literal)*) => {
        concat!("SELECT ", $key, " FROM ", $table, " WHERE ", $key, " < 1 ORDER BY ", $key, " LIMIT 1")
    };
}

// the first rows above a number at a device
macro_rules! page_at_device {
    ($table:literal $made:tt, $first:literal $of:tt $key:literal $kind:literal $(, $value:literal $field:tt $column:literal $type:literal)*) => {
        concat!("SELECT ", $key $(, ", ", $column)*, " FROM ", $table, " WHERE ", $key, " > ?1 AND device = ?2 ORDER BY ", $key, " LIMIT ?3")
    };
}

// one row, by the key of a request
macro_rules! one_of_request {
    ($table:literal $made:tt, $first:literal $of:tt $key:literal $kind:literal $(, $value:literal $field:tt $column:literal $type:literal)*) => {
        concat!("SELECT ", $key $(, ", ", $column)*, " FROM ", $table, " WHERE requester = ?1 AND invoke = ?2 ORDER BY ", $key, " LIMIT 1")
    };
}

macro_rules! create_of_request {
    ($table:literal $made:tt, $first:literal $of:tt $key:literal $kind:literal $(, $value:literal $field:tt $column:literal $type:literal)*) => {
        concat!("CREATE TABLE ", $table, " (", $key, " ", $kind $(, ", ", $column, " ", $type)*, ", UNIQUE (requester, invoke)) STRICT")
    };
}

// ---- tables whose key is of two columns

macro_rules! create_pair {
    ($table:literal $made:tt, $first:literal $of:tt $key:literal $kind:literal, $other:literal $by:tt $second:literal $sort:literal $(, $value:literal $field:tt $column:literal $type:literal)*) => {
        concat!("CREATE TABLE ", $table, " (", $key, " ", $kind, ", ", $second, " ", $sort $(, ", ", $column, " ", $type)*, ", PRIMARY KEY (", $key, ", ", $second, ")) STRICT")
    };
}

macro_rules! update_pair {
    ($table:literal $made:tt, $first:literal $of:tt $key:literal $kind:literal, $other:literal $by:tt $second:literal $sort:literal, $next:literal $in:tt $third:literal $with:literal $(, $value:literal $field:tt $column:literal $type:literal)*) => {
        concat!("UPDATE ", $table, " SET ", $third, " = ?", $next $(, ", ", $column, " = ?", $value)*, " WHERE ", $key, " = ?", $first, " AND ", $second, " = ?", $other)
    };
}

macro_rules! delete_pair {
    ($table:literal $made:tt, $first:literal $of:tt $key:literal $kind:literal, $other:literal $by:tt $second:literal $sort:literal $(, $value:literal $field:tt $column:literal $type:literal)*) => {
        concat!("DELETE FROM ", $table, " WHERE ", $key, " = ?", $first, " AND ", $second, " = ?", $other)
    };
}

macro_rules! select_pair {
    ($table:literal $made:tt, $first:literal $of:tt $key:literal $kind:literal, $other:literal $by:tt $second:literal $sort:literal $(, $value:literal $field:tt $column:literal $type:literal)*) => {
        concat!("SELECT ", $key, ", ", $second $(, ", ", $column)*, " FROM ", $table, " ORDER BY ", $key, ", ", $second)
    };
}

// in the order of the rows
macro_rules! select_standing {
    ($table:literal $made:tt, $first:literal $of:tt $key:literal $kind:literal $(, $value:literal $field:tt $column:literal $type:literal)*) => {
        concat!("SELECT ", $key $(, ", ", $column)*, " FROM ", $table)
    };
}

// ---- the limits and the counters

// the columns after key and version
macro_rules! select_counters {
    ($table:literal $made:tt, $first:literal $of:tt $key:literal $kind:literal, $other:literal $by:tt $second:literal $sort:literal, $next:literal $in:tt $third:literal $with:literal $(, $value:literal $field:tt $column:literal $type:literal)*) => {
        concat!("SELECT ", $third $(, ", ", $column)*, " FROM ", $table)
    };
}

macro_rules! select_version {
    ($table:literal $made:tt, $first:literal $of:tt $key:literal $kind:literal, $other:literal $by:tt $second:literal $sort:literal $(, $value:literal $field:tt $column:literal $type:literal)*) => {
        concat!("SELECT ", $second, " FROM ", $table)
    };
}

pub const CREATE_META: &str = meta!(create);

pub const INSERT_META: &str = meta!(insert);

pub const UPDATE_META: &str =
    "UPDATE meta SET max_requests = ?1, max_calls = ?2, max_groups = ?3, max_stations = ?4, max_agents = ?5, max_monitors = ?6, last_stamp = ?7, last_moment = ?8, last_call = ?9, last_monitor = ?10, last_event = ?11 WHERE id = 1";

// makes version 2 of a version 1, after its new tables
pub const UPDATE_VERSION: &str = "UPDATE meta SET version = 2 WHERE id = 1";

pub const SELECT_META: &str = meta!(select_counters);

pub const SELECT_VERSION: &str = meta!(select_version);

// ---- groups

pub const CREATE_GROUPS: &str = groups!(create);

pub const INSERT_GROUP: &str = groups!(insert);

pub const UPDATE_GROUP: &str = groups!(update);

pub const SELECT_GROUPS: &str = groups!(select);

// ---- stations

pub const CREATE_STATIONS: &str = stations!(create);

pub const INSERT_STATION: &str = stations!(insert);

pub const SELECT_STATIONS: &str = stations!(select);

// ---- agents

pub const CREATE_AGENTS: &str = agents!(create);

pub const INSERT_AGENT: &str = agents!(insert);

pub const UPDATE_AGENT: &str = agents!(update);

pub const SELECT_AGENTS: &str = agents!(select);

// ---- calls

pub const CREATE_CALLS: &str = calls!(create);

pub const INSERT_CALL: &str = calls!(insert);

pub const UPDATE_CALL: &str = calls!(update);

pub const DELETE_CALL: &str = calls!(delete);

pub const SELECT_CALLS: &str = calls!(select);

// ---- connections

pub const CREATE_CONNECTIONS: &str = connections!(create_pair);

pub const INSERT_CONNECTION: &str = connections!(insert);

pub const UPDATE_CONNECTION: &str = connections!(update_pair);

pub const DELETE_CONNECTION: &str = connections!(delete_pair);

pub const SELECT_CONNECTIONS: &str = connections!(select_pair);

pub const SELECT_STANDING_CONNECTIONS: &str = connections!(select_standing);

// ---- monitors

pub const CREATE_MONITORS: &str = monitors!(create);

pub const INSERT_MONITOR: &str = monitors!(insert);

pub const UPDATE_MONITOR: &str = monitors!(update);

pub const DELETE_MONITOR: &str = monitors!(delete);

pub const SELECT_MONITORS: &str = monitors!(select);

pub const SELECT_MONITOR: &str = monitors!(one);

// ---- events

pub const CREATE_EVENTS: &str = events!(create);

pub const INSERT_EVENT: &str = events!(insert);

pub const DELETE_EVENTS_UP_TO: &str = events!(delete_up_to);

pub const SELECT_EVENTS_AFTER: &str = events!(page);

pub const SELECT_EVENTS_AT_DEVICE: &str = events!(page_at_device);

pub const SELECT_LOW_EVENT: &str = events!(low);

// ---- kept records

pub const CREATE_KEPT: &str = kept!(create_of_request);

pub const INSERT_KEPT: &str = kept!(insert);

pub const DELETE_KEPT_UP_TO: &str = kept!(delete_up_to);

pub const SELECT_KEPT_AFTER: &str = kept!(page);

pub const SELECT_KEPT_OF_REQUEST: &str = kept!(one_of_request);

pub const SELECT_LOW_KEPT: &str = kept!(low);

// ---- the further groups of agents

pub const CREATE_AGENT_GROUPS: &str = agent_groups!(create_pair);

pub const INSERT_AGENT_GROUP: &str = agent_groups!(insert);

// all groups of an agent
pub const DELETE_AGENT_GROUPS: &str = agent_groups!(delete);

pub const SELECT_AGENT_GROUPS: &str = agent_groups!(select_pair);

pub const SELECT_STANDING_AGENT_GROUPS: &str = agent_groups!(select_standing);

// ---- the groups whose priority isn't 0

pub const CREATE_GROUP_PRIORITY: &str = group_priority!(create);

pub const INSERT_GROUP_PRIORITY: &str = group_priority!(insert);

pub const UPDATE_GROUP_PRIORITY: &str = group_priority!(update);

pub const DELETE_GROUP_PRIORITY: &str = group_priority!(delete);

pub const SELECT_GROUP_PRIORITY: &str = group_priority!(select);
