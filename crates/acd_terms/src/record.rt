//! The records of the switch.
//!
//! A record's columns are those that the store keeps. Which columns a connection or an agent has is
//! said by the rules of rows, and not by these types, so that rows that break a rule can be held and
//! refused.

ghost use Rattle.std.specs.Prelude.{◌≡◌};
ghost use Rattle.acd_terms.specs.States.{is_distributed};

use crate::groups::Groups;
use crate::id::{AgentId, DeviceId};
use crate::name::Name;
use crate::number::{Priority, Seconds};
use crate::state::{AgentState, ConnectionState, Pending};

/// The counts of a group since it was added.
#[derive(Clone, Copy, Debug, Default, PartialEq, Eq)]
pub struct Figures {
    /// Calls that entered the queue, but for returns after no answer.
    pub entered: u64,
    /// Calls answered by the group's agents.
    pub answered: u64,
    /// Calls cleared while they waited in the group or rang from it.
    pub abandoned: u64,
    /// Calls deflected while they waited in the group or rang from it.
    pub moved: u64,
    /// Seconds that the answered calls waited, in all.
    pub waited: u64,
}

/// A group (an ACD group of ECMA-269).
#[derive(Clone, Copy, Debug, PartialEq, Eq)]
pub struct GroupRecord {
    pub device: DeviceId,
    pub name: Name,
    /// How long a call is offered at a station.
    pub ring: Seconds,
    /// How long after-call work lasts.
    pub wrap: Seconds,
    /// Among groups that have a waiting call and an eligible agent, the highest comes first.
    pub priority: Priority,
    pub figures: Figures,
}

/// A station.
#[derive(Clone, Copy, Debug, PartialEq, Eq)]
pub struct StationRecord {
    pub device: DeviceId,
}

/// An agent.
#[derive(Clone, Copy, Debug, PartialEq, Eq)]
pub struct AgentRecord {
    pub agent: AgentId,
    pub name: Name,
    /// The station where the agent is logged on.
    pub station: Option<DeviceId>,
    pub groups: Groups,
    /// The stamp of the executed request that last changed the state.
    pub stamp: u64,
    /// The moment of that request, in seconds.
    pub since: u32,
    pub state: AgentState,
    /// The state that follows once the distributed connection at the station ends.
    pub pending: Option<Pending>,
}

/// A live call.
#[derive(Clone, Copy, Debug, PartialEq, Eq)]
pub struct CallRecord {
    pub call: u64,
    /// A station, or the number of an external caller.
    pub caller: DeviceId,
    pub called: DeviceId,
    /// The moment at which the call was made or arrived.
    pub since: u32,
}

/// A connection: a call at a device.
#[derive(Clone, Copy, Debug, PartialEq, Eq)]
pub struct ConnectionRecord {
    pub call: u64,
    pub device: DeviceId,
    pub state: ConnectionState,
    /// The group of a queued or a distributed connection.
    pub group: Option<DeviceId>,
    /// The place in the queue: the stamp of the request by which the call entered.
    pub place: Option<u64>,
    /// The moment at which the call entered the queue.
    pub queued: Option<u32>,
    /// The moment at which the call was offered.
    pub offered: Option<u32>,
}

impl ConnectionRecord {
    /// A connection that distribution offered, until it ends.
    pub fn is_distributed(&self) -> bool
        ensures { result ≡ is_distributed self.now }
    {
        self.group.is_some() && !self.state.is_queued()
    }
}

/// A running monitor (Monitor Start of ECMA-269).
#[derive(Clone, Copy, Debug, PartialEq, Eq)]
pub struct MonitorRecord {
    pub monitor: u64,
    pub device: DeviceId,
    /// The last event before the monitor was started.
    pub after_event: u64,
}
