//! The tables, seen as rows.

ghost use Rattle.std.specs.Prelude.{◌≡◌, length, not, nat_le, IfOk};
ghost use Rattle.acd_terms.specs.Rows.{empty_rows};
ghost use Rattle.acd_model.specs.Scans.{group_of, station_of, agent_of, call_of, connection_of, monitor_of, is_group, is_station, is_planned};
ghost use Rattle.acd_tables.specs.Kinds.{kind_of};

use crate::indexes::Indexes;
use crate::kind::DeviceKind;
use crate::records::Records;
use acd_terms::{
    AgentId, AgentRecord, CallRecord, ConnectionRecord, DeviceId, GroupRecord, Limits, Listed,
    MonitorRecord, Rows, StationRecord,
};
use std::alloc::{AllocError, Global};
use std::marker::Model;

/// The records, the limits and the counters, with the indexes that spare their look-ups the way through them.
///
/// A write that would give two agents one station, or let a call wait or an agent be ready in a group
/// that isn't planned, is refused as if there were no memory.
pub struct Tables {
    pub(crate) alloc: Global,
    pub(crate) records: Records,
    pub(crate) indexes: Indexes,
}

impl Model for Tables {
    ghost use Rattle.acd_terms.specs.declared.rows.Rows.{Rows};

    ghost Value = { Rows };

    ghost use Rattle.acd_tables.specs.IndexedRows.{IsIndexed};

    ghost view = { λ t. t.records };

    ghost invariant = { λ t. IsIndexed t.records t.indexes };
}

// Written out, so that a caller that lets tables go sees one call and not each map of them.
impl Drop for Tables {
    fn drop(self) {
        let Tables {
            alloc: _,
            records,
            indexes,
        } = self;
        drop(records);
        drop(indexes);
    }
}

impl Tables {
    /// Tables with no record.
    pub fn new(alloc: Global, limits: Limits) -> Self
        ensures { result ≡ empty_rows limits }
    {
        Tables {
            alloc,
            records: Records::new(alloc, limits),
            indexes: Indexes::new(alloc),
        }
    }

    /// Tables of these rows. Lists that aren't in strictly ascending key are refused as if there were no memory.
    pub fn from_rows(alloc: Global, rows: &Rows) -> Result<Self, AllocError>
        ensures { IfOk result (λ t. t ≡ rows.now) }
    {
        let mut tables = Tables {
            alloc,
            records: Records::without_indexed(alloc, rows)?,
            indexes: Indexes::new(alloc),
        };
        tables.put_indexed(rows)?;
        Ok(tables)
    }

    /// The records and counters, copied.
    pub fn rows(&self) -> Result<Rows, AllocError>
        ensures { IfOk result (λ r. r ≡ self.now) }
    {
        self.records.rows(self.alloc)
    }

    /// The groups in ascending number, copied.
    pub fn groups(&self) -> Result<Listed<GroupRecord>, AllocError>
        ensures { IfOk result (λ l. l ≡ self.now.groups) }
    {
        self.records.groups(self.alloc)
    }

    pub fn group(&self, device: DeviceId) -> Option<GroupRecord>
        ensures { result ≡ group_of self.now device }
    {
        self.records.group(device)
    }

    pub fn station(&self, device: DeviceId) -> Option<StationRecord>
        ensures { result ≡ station_of self.now device }
    {
        self.records.station(device)
    }

    pub fn agent(&self, agent: AgentId) -> Option<AgentRecord>
        ensures { result ≡ agent_of self.now agent }
    {
        self.records.agent(agent)
    }

    pub fn call(&self, call: u64) -> Option<CallRecord>
        ensures { result ≡ call_of self.now call }
    {
        self.records.call(call)
    }

    pub fn connection(&self, call: u64, device: DeviceId) -> Option<ConnectionRecord>
        ensures { result ≡ connection_of self.now call device }
    {
        self.records.connection(call, device)
    }

    pub fn monitor(&self, monitor: u64) -> Option<MonitorRecord>
        ensures { result ≡ monitor_of self.now monitor }
    {
        self.records.monitor(monitor)
    }

    pub fn is_group(&self, device: DeviceId) -> bool
        ensures { result ≡ is_group self.now device }
    {
        self.group(device).is_some()
    }

    pub fn is_station(&self, device: DeviceId) -> bool
        ensures { result ≡ is_station self.now device }
    {
        self.station(device).is_some()
    }

    /// Groups and stations are planned, external callers are not.
    pub fn is_planned(&self, device: DeviceId) -> bool
        ensures { result ≡ is_planned self.now device }
    {
        self.is_group(device) || self.is_station(device)
    }

    /// The kind of the planned device, if there is one.
    #[tactic(auto, unfolding(crate::specs::Kinds::kind_of))]
    pub fn kind_of(&self, device: DeviceId) -> Option<DeviceKind>
        ensures { result ≡ kind_of self.now device }
    {
        if self.is_group(device) {
            Some(DeviceKind::Group)
        } else if self.is_station(device) {
            Some(DeviceKind::Station)
        } else {
            None
        }
    }

    pub fn has_room_for_group(&self) -> bool
        ensures { result ≡ not (nat_le self.now.limits.groups (length self.now.groups)) }
    {
        self.records.has_room_for_group()
    }

    pub fn has_room_for_station(&self) -> bool
        ensures { result ≡ not (nat_le self.now.limits.stations (length self.now.stations)) }
    {
        self.records.has_room_for_station()
    }

    pub fn has_room_for_agent(&self) -> bool
        ensures { result ≡ not (nat_le self.now.limits.agents (length self.now.agents)) }
    {
        self.records.has_room_for_agent()
    }

    pub fn has_room_for_call(&self) -> bool
        ensures { result ≡ not (nat_le self.now.limits.calls (length self.now.calls)) }
    {
        self.records.has_room_for_call()
    }

    pub fn has_room_for_monitor(&self) -> bool
        ensures { result ≡ not (nat_le self.now.limits.monitors (length self.now.monitors)) }
    {
        self.records.has_room_for_monitor()
    }

    pub fn limits(&self) -> Limits
        ensures { result ≡ self.now.limits }
    {
        self.records.limits()
    }

    pub fn last_stamp(&self) -> u64
        ensures { result ≡ self.now.last_stamp }
    {
        self.records.last_stamp()
    }

    /// The moment of the last executed request, in seconds.
    pub fn last_moment(&self) -> u32
        ensures { result ≡ self.now.last_moment }
    {
        self.records.last_moment()
    }

    pub fn last_call(&self) -> u64
        ensures { result ≡ self.now.last_call }
    {
        self.records.last_call()
    }

    pub fn last_monitor(&self) -> u64
        ensures { result ≡ self.now.last_monitor }
    {
        self.records.last_monitor()
    }

    pub fn last_event(&self) -> u64
        ensures { result ≡ self.now.last_event }
    {
        self.records.last_event()
    }
}
