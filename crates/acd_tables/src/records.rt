//! The records of the switch and its counters, seen as rows.

pub mod writes;

ghost use Rattle.std.specs.Prelude.{◌≡◌, ◌<◌, ◌^◌, ◌↔◌, [], length, not, nat_le, IfOk};
ghost use Rattle.acd_terms.specs.Lists.{Among, first_two};
ghost use Rattle.acd_terms.specs.Rows.{empty_rows};
ghost use Rattle.acd_terms.specs.declared.record.CallRecord.{CallRecord};
ghost use Rattle.acd_model.specs.Scans.{group_of, station_of, agent_of, call_of, connection_of, connections_of, other_of, monitor_of};

use crate::connections::Connections;
use crate::table::Table;
use acd_terms::{
    AgentId, AgentRecord, CallRecord, ConnectionRecord, DeviceId, GroupRecord, Limits, Listed,
    MonitorRecord, Rows, StationRecord,
};
use std::alloc::{AllocError, Global};
use std::collections::hash_map::Values;
use std::marker::Model;

/// The records by key, the limits and the counters.
#[derive(Drop)]
pub struct Records {
    limits: Limits,
    groups: Table<GroupRecord>,
    stations: Table<StationRecord>,
    agents: Table<AgentRecord>,
    calls: Table<CallRecord>,
    connections: Connections,
    monitors: Table<MonitorRecord>,
    last_stamp: u64,
    last_moment: u32,
    last_call: u64,
    last_monitor: u64,
    last_event: u64,
}

impl Model for Records {
    ghost use Rattle.acd_terms.specs.declared.rows.Rows.{Rows};

    ghost Value = { Rows };

    ghost view = { λ t. record {
      limits = t.limits;
      groups = t.groups;
      stations = t.stations;
      agents = t.agents;
      calls = t.calls;
      connections = t.connections;
      monitors = t.monitors;
      last_stamp = t.last_stamp;
      last_moment = t.last_moment;
      last_call = t.last_call;
      last_monitor = t.last_monitor;
      last_event = t.last_event;
    } };
}

impl Records {
    /// No record.
    pub fn new(alloc: Global, limits: Limits) -> Self
        ensures { result ≡ empty_rows limits }
    {
        Records {
            limits,
            groups: Table::new(alloc),
            stations: Table::new(alloc),
            agents: Table::new(alloc),
            calls: Table::new(alloc),
            connections: Connections::new(alloc),
            monitors: Table::new(alloc),
            last_stamp: 0,
            last_moment: 0,
            last_call: 0,
            last_monitor: 0,
            last_event: 0,
        }
    }

    /// The records of these rows. Lists that aren't in strictly ascending key are refused as if there were no memory.
    pub fn from_rows(alloc: Global, rows: &Rows) -> Result<Self, AllocError>
        ensures { IfOk result (λ t. t ≡ rows.now) }
    {
        Ok(Records {
            limits: rows.limits,
            groups: Table::from_slice(alloc, rows.groups.as_slice())?,
            stations: Table::from_slice(alloc, rows.stations.as_slice())?,
            agents: Table::from_slice(alloc, rows.agents.as_slice())?,
            calls: Table::from_slice(alloc, rows.calls.as_slice())?,
            connections: Connections::from_slice(alloc, rows.connections.as_slice())?,
            monitors: Table::from_slice(alloc, rows.monitors.as_slice())?,
            last_stamp: rows.last_stamp,
            last_moment: rows.last_moment,
            last_call: rows.last_call,
            last_monitor: rows.last_monitor,
            last_event: rows.last_event,
        })
    }

    /// The records of these rows, but for groups, agents and connections, of which there are none.
    pub(crate) fn without_indexed(alloc: Global, rows: &Rows) -> Result<Self, AllocError>
        ensures { IfOk result
            (λ r. r ≡ record rows.now { groups = []; agents = []; connections = [] }) }
    {
        Ok(Records {
            limits: rows.limits,
            groups: Table::new(alloc),
            stations: Table::from_slice(alloc, rows.stations.as_slice())?,
            agents: Table::new(alloc),
            calls: Table::from_slice(alloc, rows.calls.as_slice())?,
            connections: Connections::new(alloc),
            monitors: Table::from_slice(alloc, rows.monitors.as_slice())?,
            last_stamp: rows.last_stamp,
            last_moment: rows.last_moment,
            last_call: rows.last_call,
            last_monitor: rows.last_monitor,
            last_event: rows.last_event,
        })
    }

    /// The records and counters, copied.
    pub fn rows(&self, alloc: Global) -> Result<Rows, AllocError>
        ensures { IfOk result (λ r. r ≡ self.now) }
    {
        Ok(Rows {
            limits: self.limits,
            groups: self.groups.copied(alloc)?,
            stations: self.stations.copied(alloc)?,
            agents: self.agents.copied(alloc)?,
            calls: self.calls.copied(alloc)?,
            connections: self.connections.copied(alloc)?,
            monitors: self.monitors.copied(alloc)?,
            last_stamp: self.last_stamp,
            last_moment: self.last_moment,
            last_call: self.last_call,
            last_monitor: self.last_monitor,
            last_event: self.last_event,
        })
    }

    /// The groups in ascending number, copied.
    pub fn groups(&self, alloc: Global) -> Result<Listed<GroupRecord>, AllocError>
        ensures { IfOk result (λ l. l ≡ self.now.groups) }
    {
        self.groups.copied(alloc)
    }

    #[tactic(auto, unfolding(acd_model::specs::Scans::group_of))]
    pub fn group(&self, device: DeviceId) -> Option<GroupRecord>
        ensures { result ≡ group_of self.now device }
    {
        self.groups.find(device)
    }

    #[tactic(auto, unfolding(acd_model::specs::Scans::station_of))]
    pub fn station(&self, device: DeviceId) -> Option<StationRecord>
        ensures { result ≡ station_of self.now device }
    {
        self.stations.find(device)
    }

    #[tactic(auto, unfolding(acd_model::specs::Scans::agent_of))]
    pub fn agent(&self, agent: AgentId) -> Option<AgentRecord>
        ensures { result ≡ agent_of self.now agent }
    {
        self.agents.find(agent)
    }

    #[tactic(auto, unfolding(acd_model::specs::Scans::call_of))]
    pub fn call(&self, call: u64) -> Option<CallRecord>
        ensures { result ≡ call_of self.now call }
    {
        self.calls.find(call)
    }

    #[tactic(auto, unfolding(acd_model::specs::Scans::connection_of))]
    pub fn connection(&self, call: u64, device: DeviceId) -> Option<ConnectionRecord>
        ensures { result ≡ connection_of self.now call device }
    {
        self.connections.find(call, device)
    }

    #[tactic(auto, unfolding(acd_model::specs::Scans::monitor_of))]
    pub fn monitor(&self, monitor: u64) -> Option<MonitorRecord>
        ensures { result ≡ monitor_of self.now monitor }
    {
        self.monitors.find(monitor)
    }

    /// The calls, in no order.
    pub fn calls(&self) -> Values<'_, u64, CallRecord>
        ensures { (c : CallRecord) → Among c self.now.calls ↔ Among c result }
    {
        self.calls.values()
    }

    /// The first two connections of the call. A call has no more.
    #[tactic(auto, unfolding(acd_model::specs::Scans::connections_of))]
    pub fn connections_of(&self, call: u64) -> [Option<ConnectionRecord>; 2]
        ensures { result ≡ first_two (connections_of self.now call) }
    {
        self.connections.of_call(call)
    }

    /// The other party of the connection's call.
    #[tactic(auto, unfolding(acd_model::specs::Scans::other_of))]
    pub fn other_of(&self, connection: &ConnectionRecord) -> Option<ConnectionRecord>
        ensures { result ≡ other_of self.now connection.now }
    {
        self.connections.other_of(connection)
    }

    pub fn connection_count(&self) -> usize
        ensures value { result ≡ length self.now.connections }
        ensures small { result < 2 ^ 63 }
    {
        self.connections.len()
    }

    pub fn has_room_for_group(&self) -> bool
        ensures { result ≡ not (nat_le self.now.limits.groups (length self.now.groups)) }
    {
        (self.groups.len() as u64) < self.limits.groups
    }

    pub fn has_room_for_station(&self) -> bool
        ensures { result ≡ not (nat_le self.now.limits.stations (length self.now.stations)) }
    {
        (self.stations.len() as u64) < self.limits.stations
    }

    pub fn has_room_for_agent(&self) -> bool
        ensures { result ≡ not (nat_le self.now.limits.agents (length self.now.agents)) }
    {
        (self.agents.len() as u64) < self.limits.agents
    }

    pub fn has_room_for_call(&self) -> bool
        ensures { result ≡ not (nat_le self.now.limits.calls (length self.now.calls)) }
    {
        (self.calls.len() as u64) < self.limits.calls
    }

    pub fn has_room_for_monitor(&self) -> bool
        ensures { result ≡ not (nat_le self.now.limits.monitors (length self.now.monitors)) }
    {
        (self.monitors.len() as u64) < self.limits.monitors
    }

    pub fn limits(&self) -> Limits
        ensures { result ≡ self.now.limits }
    {
        self.limits
    }

    pub fn last_stamp(&self) -> u64
        ensures { result ≡ self.now.last_stamp }
    {
        self.last_stamp
    }

    /// The moment of the last executed request, in seconds.
    pub fn last_moment(&self) -> u32
        ensures { result ≡ self.now.last_moment }
    {
        self.last_moment
    }

    pub fn last_call(&self) -> u64
        ensures { result ≡ self.now.last_call }
    {
        self.last_call
    }

    pub fn last_monitor(&self) -> u64
        ensures { result ≡ self.now.last_monitor }
    {
        self.last_monitor
    }

    pub fn last_event(&self) -> u64
        ensures { result ≡ self.now.last_event }
    {
        self.last_event
    }
}
