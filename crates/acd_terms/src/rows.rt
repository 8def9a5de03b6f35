//! The state of the switch as lists.

ghost use Rattle.std.specs.Prelude.{◌≡◌};
ghost use Rattle.acd_terms.specs.Limits.{limits_fit};
ghost use Rattle.acd_terms.specs.Rows.{empty_rows};

use crate::listed::Listed;
use crate::record::{
    AgentRecord, CallRecord, ConnectionRecord, GroupRecord, MonitorRecord, StationRecord,
};
use std::alloc::Global;

/// How much a desk may hold.
#[derive(Clone, Copy, Debug, PartialEq, Eq)]
pub struct Limits {
    /// Executed requests.
    pub requests: u64,
    /// Live calls.
    pub calls: u64,
    pub groups: u64,
    pub stations: u64,
    pub agents: u64,
    /// Running monitors.
    pub monitors: u64,
}

impl Limits {
    /// The limits of a new desk.
    pub const GREATEST: Limits = Limits {
        requests: 1000000000,
        calls: 2000,
        groups: 64,
        stations: 1000,
        agents: 1000,
        monitors: 256,
    };

    /// No limit is above the greatest.
    #[tactic(auto, unfolding(crate::specs::Limits::limits_fit))]
    pub fn fits(self) -> bool
        ensures { result ≡ limits_fit self }
    {
        self.requests <= Limits::GREATEST.requests
            && self.calls <= Limits::GREATEST.calls
            && self.groups <= Limits::GREATEST.groups
            && self.stations <= Limits::GREATEST.stations
            && self.agents <= Limits::GREATEST.agents
            && self.monitors <= Limits::GREATEST.monitors
    }
}

/// The state: the limits, lists in ascending key, and the counters.
#[derive(Clone, Debug, PartialEq, Eq, Drop)]
pub struct Rows {
    pub limits: Limits,
    pub groups: Listed<GroupRecord>,
    pub stations: Listed<StationRecord>,
    pub agents: Listed<AgentRecord>,
    pub calls: Listed<CallRecord>,
    pub connections: Listed<ConnectionRecord>,
    pub monitors: Listed<MonitorRecord>,
    /// How many requests were executed.
    pub last_stamp: u64,
    /// The moment of the last executed request, in seconds.
    pub last_moment: u32,
    pub last_call: u64,
    pub last_monitor: u64,
    pub last_event: u64,
}

impl Rows {
    /// No records, and counters of 0.
    pub fn empty(alloc: Global, limits: Limits) -> Rows
        ensures { result ≡ empty_rows limits }
    {
        Rows {
            limits,
            groups: Listed::new(Vec::new(alloc)),
            stations: Listed::new(Vec::new(alloc)),
            agents: Listed::new(Vec::new(alloc)),
            calls: Listed::new(Vec::new(alloc)),
            connections: Listed::new(Vec::new(alloc)),
            monitors: Listed::new(Vec::new(alloc)),
            last_stamp: 0,
            last_moment: 0,
            last_call: 0,
            last_monitor: 0,
            last_event: 0,
        }
    }
}

/// The rules that the rows of a switch keep, in the order in which they are tested.
#[derive(Clone, Copy, Debug, PartialEq, Eq)]
pub enum Rule {
    Limits,
    Order,
    Device,
    Agent,
    Call,
    Connection,
    Parties,
    Live,
    Occupied,
    Counters,
    Offer,
    Monitor,
    Balance,
}
