//! The reports of the switch.

ghost use Rattle.std.specs.Prelude.{◌≡◌};
ghost use Rattle.acd_terms.specs.Columns.{columns_of, at_device, of_agent};
ghost use Rattle.acd_terms.specs.EventNames.{kind_name, cause_name};

use crate::id::{AgentId, DeviceId};

/// Why a call came to a device or left it.
#[derive(Clone, Copy, Debug, PartialEq, Eq)]
pub enum Cause {
    NewCall,
    Distributed,
    Deflected,
    Transferred,
    NoAnswer,
    Busy,
}

impl Cause {
    /// The name as it is written.
    pub fn name(self) -> &'static str
        ensures { result.now ≡ cause_name self }
    {
        match self {
            Cause::NewCall => "newCall",
            Cause::Distributed => "distributed",
            Cause::Deflected => "deflected",
            Cause::Transferred => "transferred",
            Cause::NoAnswer => "noAnswer",
            Cause::Busy => "busy",
        }
    }
}

/// For how many seconds an answered call waited, and in which group.
#[derive(Clone, Copy, Debug, PartialEq, Eq)]
pub struct Waited {
    pub group: DeviceId,
    pub seconds: u32,
}

/// The event reports of ECMA-269 that the desk makes, each with just its members.
#[derive(Clone, Copy, Debug, PartialEq, Eq)]
pub enum Report {
    ServiceInitiated {
        call: u64,
        station: DeviceId,
    },
    Originated {
        call: u64,
        station: DeviceId,
        to: DeviceId,
    },
    Queued {
        call: u64,
        group: DeviceId,
        cause: Cause,
    },
    Delivered {
        call: u64,
        station: DeviceId,
        cause: Cause,
        /// The group of a distributed call.
        group: Option<DeviceId>,
    },
    Diverted {
        call: u64,
        device: DeviceId,
        to: DeviceId,
        cause: Cause,
        /// The group in whose queue the call was, or which distributed it.
        group: Option<DeviceId>,
    },
    Established {
        call: u64,
        station: DeviceId,
        /// Present for a distributed call.
        waited: Option<Waited>,
    },
    Held {
        call: u64,
        station: DeviceId,
    },
    Retrieved {
        call: u64,
        station: DeviceId,
    },
    Transferred {
        call: u64,
        station: DeviceId,
        to: DeviceId,
    },
    /// The called station was busy.
    Failed {
        call: u64,
        station: DeviceId,
    },
    ConnectionCleared {
        call: u64,
        device: DeviceId,
    },
    CallCleared {
        call: u64,
        /// The group in which the call waited, or from which it rang.
        group: Option<DeviceId>,
    },
    AgentLoggedOn {
        agent: AgentId,
        station: DeviceId,
        /// Of an agent who is in just one.
        group: Option<DeviceId>,
    },
    AgentLoggedOff {
        agent: AgentId,
        station: DeviceId,
    },
    AgentNotReady {
        agent: AgentId,
        station: DeviceId,
    },
    AgentReady {
        agent: AgentId,
        station: DeviceId,
    },
    AgentBusy {
        agent: AgentId,
        station: DeviceId,
    },
    AgentWorkingAfterCall {
        agent: AgentId,
        station: DeviceId,
    },
}

/// The kind of a report, without its members.
#[derive(Clone, Copy, Debug, PartialEq, Eq)]
pub enum EventKind {
    ServiceInitiated,
    Originated,
    Queued,
    Delivered,
    Diverted,
    Established,
    Held,
    Retrieved,
    Transferred,
    Failed,
    ConnectionCleared,
    CallCleared,
    AgentLoggedOn,
    AgentLoggedOff,
    AgentNotReady,
    AgentReady,
    AgentBusy,
    AgentWorkingAfterCall,
}

impl EventKind {
    /// The name as it is written.
    pub fn name(self) -> &'static str
        ensures { result.now ≡ kind_name self }
    {
        match self {
            EventKind::ServiceInitiated => "serviceInitiated",
            EventKind::Originated => "originated",
            EventKind::Queued => "queued",
            EventKind::Delivered => "delivered",
            EventKind::Diverted => "diverted",
            EventKind::Established => "established",
            EventKind::Held => "held",
            EventKind::Retrieved => "retrieved",
            EventKind::Transferred => "transferred",
            EventKind::Failed => "failed",
            EventKind::ConnectionCleared => "connectionCleared",
            EventKind::CallCleared => "callCleared",
            EventKind::AgentLoggedOn => "agentLoggedOn",
            EventKind::AgentLoggedOff => "agentLoggedOff",
            EventKind::AgentNotReady => "agentNotReady",
            EventKind::AgentReady => "agentReady",
            EventKind::AgentBusy => "agentBusy",
            EventKind::AgentWorkingAfterCall => "agentWorkingAfterCall",
        }
    }
}

/// A report as the columns of a table: texts, exports and stores go by it.
#[derive(Clone, Copy, Debug, PartialEq, Eq)]
pub struct Columns {
    pub kind: EventKind,
    pub device: Option<DeviceId>,
    pub call: Option<u64>,
    pub agent: Option<AgentId>,
    pub group: Option<DeviceId>,
    pub to: Option<DeviceId>,
    pub cause: Option<Cause>,
    pub waited: Option<u32>,
}

/// One report. Its number is 0 until the switch sets it; events are numbered from 1 over the whole desk.
#[derive(Clone, Copy, Debug, PartialEq, Eq)]
pub struct Event {
    pub number: u64,
    /// The moment of the executed request, in seconds.
    pub moment: u32,
    pub report: Report,
}

// The columns of a call at a device.
fn at_device(kind: EventKind, call: u64, device: DeviceId) -> Columns
    ensures { result ≡ at_device kind call device }
{
    Columns {
        kind,
        device: Some(device),
        call: Some(call),
        agent: None,
        group: None,
        to: None,
        cause: None,
        waited: None,
    }
}

// The columns of an agent at a station.
fn of_agent(kind: EventKind, agent: AgentId, station: DeviceId) -> Columns
    ensures { result ≡ of_agent kind agent station }
{
    Columns {
        kind,
        device: Some(station),
        call: None,
        agent: Some(agent),
        group: None,
        to: None,
        cause: None,
        waited: None,
    }
}

impl Report {
    /// The report as columns.
    pub fn columns(&self) -> Columns
        ensures { result ≡ columns_of self.now }
    {
        match *self {
            Report::ServiceInitiated { call, station } => {
                at_device(EventKind::ServiceInitiated, call, station)
            }
            Report::Originated { call, station, to } => Columns {
                to: Some(to),
                ..at_device(EventKind::Originated, call, station)
            },
            Report::Queued { call, group, cause } => Columns {
                cause: Some(cause),
                ..at_device(EventKind::Queued, call, group)
            },
            Report::Delivered {
                call,
                station,
                cause,
                group,
            } => Columns {
                cause: Some(cause),
                group,
                ..at_device(EventKind::Delivered, call, station)
            },
            Report::Diverted {
                call,
                device,
                to,
                cause,
                group,
            } => Columns {
                to: Some(to),
                cause: Some(cause),
                group,
                ..at_device(EventKind::Diverted, call, device)
            },
            Report::Established {
                call,
                station,
                waited: None,
            } => at_device(EventKind::Established, call, station),
            Report::Established {
                call,
                station,
                waited: Some(Waited { group, seconds }),
            } => Columns {
                group: Some(group),
                waited: Some(seconds),
                ..at_device(EventKind::Established, call, station)
            },
            Report::Held { call, station } => at_device(EventKind::Held, call, station),
            Report::Retrieved { call, station } => at_device(EventKind::Retrieved, call, station),
            Report::Transferred { call, station, to } => Columns {
                to: Some(to),
                ..at_device(EventKind::Transferred, call, station)
            },
            Report::Failed { call, station } => Columns {
                cause: Some(Cause::Busy),
                ..at_device(EventKind::Failed, call, station)
            },
            Report::ConnectionCleared { call, device } => {
                at_device(EventKind::ConnectionCleared, call, device)
            }
            Report::CallCleared { call, group } => Columns {
                kind: EventKind::CallCleared,
                device: None,
                call: Some(call),
                agent: None,
                group,
                to: None,
                cause: None,
                waited: None,
            },
            Report::AgentLoggedOn {
                agent,
                station,
                group,
            } => Columns {
                group,
                ..of_agent(EventKind::AgentLoggedOn, agent, station)
            },
            Report::AgentLoggedOff { agent, station } => {
                of_agent(EventKind::AgentLoggedOff, agent, station)
            }
            Report::AgentNotReady { agent, station } => {
                of_agent(EventKind::AgentNotReady, agent, station)
            }
            Report::AgentReady { agent, station } => {
                of_agent(EventKind::AgentReady, agent, station)
            }
            Report::AgentBusy { agent, station } => of_agent(EventKind::AgentBusy, agent, station),
            Report::AgentWorkingAfterCall { agent, station } => {
                of_agent(EventKind::AgentWorkingAfterCall, agent, station)
            }
        }
    }
}
