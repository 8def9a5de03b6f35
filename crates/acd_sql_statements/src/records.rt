//! The records that the tables hold, each with its texts, the values that its statements take and how a row is read.

use crate::stored::Stored;
use crate::write::changed_rows;
use acd_sql_columns::texts::{
    DELETE_CALL, DELETE_GROUP_PRIORITY, DELETE_MONITOR, INSERT_AGENT, INSERT_CALL, INSERT_GROUP,
    INSERT_GROUP_PRIORITY, INSERT_MONITOR, INSERT_STATION, SELECT_AGENTS, SELECT_CALLS,
    SELECT_GROUP_PRIORITY, SELECT_GROUPS, SELECT_MONITORS, SELECT_STATIONS, Texts, UPDATE_AGENT,
    UPDATE_CALL, UPDATE_GROUP, UPDATE_GROUP_PRIORITY, UPDATE_MONITOR,
};
use acd_sql_columns::{AgentRow, GroupPriority, GroupRow, decode, encode};
use acd_terms::{CallRecord, MonitorRecord, StationRecord};
use sqlite::{Alter, Error, Row, Transaction};

impl Stored for GroupRow {
    ghost use Rattle.acd_sql_columns.specs.Tables.{groups};

    ghost descr = { groups };

    fn texts() -> Texts {
        Texts {
            insert: INSERT_GROUP,
            update: Some(UPDATE_GROUP),
            delete: None,
            select: Some(SELECT_GROUPS),
        }
    }

    fn run<S: Alter>(&self, tx: &mut Transaction<'_, S>, sql: &str) -> Result<usize, Error> {
        changed_rows(tx, sql, &encode::group_values(self))
    }

    fn decode(row: &Row) -> Option<GroupRow> {
        decode::group_of_row(row)
    }

    ghost use Rattle.acd_sql_columns.proofs.FileTables.TablesDescribed.{groups_described};

    ghost described = { groups_described };

    ghost reads = { λ r. tt };
}

impl Stored for GroupPriority {
    ghost use Rattle.acd_sql_columns.specs.Tables.{group_priority};

    ghost descr = { group_priority };

    fn texts() -> Texts {
        Texts {
            insert: INSERT_GROUP_PRIORITY,
            update: Some(UPDATE_GROUP_PRIORITY),
            delete: Some(DELETE_GROUP_PRIORITY),
            select: Some(SELECT_GROUP_PRIORITY),
        }
    }

    fn run<S: Alter>(&self, tx: &mut Transaction<'_, S>, sql: &str) -> Result<usize, Error> {
        changed_rows(tx, sql, &encode::priority_values(self))
    }

    fn decode(row: &Row) -> Option<GroupPriority> {
        decode::priority_of_row(row)
    }

    ghost use Rattle.acd_sql_columns.proofs.FileTables.TablesDescribed.{priorities_described};

    ghost described = { priorities_described };

    ghost reads = { λ r. tt };
}

impl Stored for StationRecord {
    ghost use Rattle.acd_sql_columns.specs.Tables.{stations};

    ghost descr = { stations };

    fn texts() -> Texts {
        Texts {
            insert: INSERT_STATION,
            update: None,
            delete: None,
            select: Some(SELECT_STATIONS),
        }
    }

    fn run<S: Alter>(&self, tx: &mut Transaction<'_, S>, sql: &str) -> Result<usize, Error> {
        changed_rows(tx, sql, &encode::station_values(self))
    }

    fn decode(row: &Row) -> Option<StationRecord> {
        decode::station_of_row(row)
    }

    ghost use Rattle.acd_sql_columns.proofs.FileTables.TablesDescribed.{stations_described};

    ghost described = { stations_described };

    ghost reads = { λ r. tt };
}

impl Stored for AgentRow {
    ghost use Rattle.acd_sql_columns.specs.Tables.{agents};

    ghost descr = { agents };

    fn texts() -> Texts {
        Texts {
            insert: INSERT_AGENT,
            update: Some(UPDATE_AGENT),
            delete: None,
            select: Some(SELECT_AGENTS),
        }
    }

    fn run<S: Alter>(&self, tx: &mut Transaction<'_, S>, sql: &str) -> Result<usize, Error> {
        changed_rows(tx, sql, &encode::agent_values(self))
    }

    fn decode(row: &Row) -> Option<AgentRow> {
        decode::agent_of_row(row)
    }

    ghost use Rattle.acd_sql_columns.proofs.FileTables.TablesDescribed.{agents_described};

    ghost described = { agents_described };

    ghost reads = { λ r. tt };
}

impl Stored for CallRecord {
    ghost use Rattle.acd_sql_columns.specs.Tables.{calls};

    ghost descr = { calls };

    fn texts() -> Texts {
        Texts {
            insert: INSERT_CALL,
            update: Some(UPDATE_CALL),
            delete: Some(DELETE_CALL),
            select: Some(SELECT_CALLS),
        }
    }

    fn run<S: Alter>(&self, tx: &mut Transaction<'_, S>, sql: &str) -> Result<usize, Error> {
        changed_rows(tx, sql, &encode::call_values(self))
    }

    fn decode(row: &Row) -> Option<CallRecord> {
        decode::call_in(row)
    }

    ghost use Rattle.acd_sql_columns.proofs.FileTables.TablesDescribed.{calls_described};

    ghost described = { calls_described };

    ghost reads = { λ r. tt };
}

impl Stored for MonitorRecord {
    ghost use Rattle.acd_sql_columns.specs.Tables.{monitors};

    ghost descr = { monitors };

    fn texts() -> Texts {
        Texts {
            insert: INSERT_MONITOR,
            update: Some(UPDATE_MONITOR),
            delete: Some(DELETE_MONITOR),
            select: Some(SELECT_MONITORS),
        }
    }

    fn run<S: Alter>(&self, tx: &mut Transaction<'_, S>, sql: &str) -> Result<usize, Error> {
        changed_rows(tx, sql, &encode::monitor_values(self))
    }

    fn decode(row: &Row) -> Option<MonitorRecord> {
        decode::monitor_of_row(row)
    }

    ghost use Rattle.acd_sql_columns.proofs.FileTables.TablesDescribed.{monitors_described};

    ghost described = { monitors_described };

    ghost reads = { λ r. tt };
}
