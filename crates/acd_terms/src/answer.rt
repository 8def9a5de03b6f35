//! The answers of the switch.

ghost use Rattle.std.specs.Prelude.{◌≡◌};
ghost use Rattle.acd_terms.specs.Refusals.{refusal_code, refusal_name};

use crate::state::{AgentState, Pending};

/// Why a request is refused. A refused request is executed: it takes a stamp, and changes nothing else.
#[derive(Clone, Copy, Debug, PartialEq, Eq)]
pub enum Refusal {
    /// The device is not planned.
    UnknownDevice,
    UnknownAgent,
    /// The call is not live.
    UnknownCall,
    /// The live call has no connection at the device.
    UnknownConnection,
    WrongConnectionState,
    WrongAgentState,
    /// The number is planned, or that of an external caller of a live call.
    DeviceExists,
    AgentExists,
    NotStation,
    NotGroup,
    DestinationBusy,
    SameDevice,
    /// An agent is logged on at the station.
    StationTaken,
    StationBusy,
    TooManyCalls,
    PlanFull,
    UnknownMonitor,
    CallerPlanned,
}

impl Refusal {
    /// The code, 1 to 18.
    pub fn code(self) -> u8
        ensures { result ≡ refusal_code self }
    {
        match self {
            Refusal::UnknownDevice => 1,
            Refusal::UnknownAgent => 2,
            Refusal::UnknownCall => 3,
            Refusal::UnknownConnection => 4,
            Refusal::WrongConnectionState => 5,
            Refusal::WrongAgentState => 6,
            Refusal::DeviceExists => 7,
            Refusal::AgentExists => 8,
            Refusal::NotStation => 9,
            Refusal::NotGroup => 10,
            Refusal::DestinationBusy => 11,
            Refusal::SameDevice => 12,
            Refusal::StationTaken => 13,
            Refusal::StationBusy => 14,
            Refusal::TooManyCalls => 15,
            Refusal::PlanFull => 16,
            Refusal::UnknownMonitor => 17,
            Refusal::CallerPlanned => 18,
        }
    }

    /// The name as it is written.
    pub fn name(self) -> &'static str
        ensures { result.now ≡ refusal_name self }
    {
        match self {
            Refusal::UnknownDevice => "unknownDevice",
            Refusal::UnknownAgent => "unknownAgent",
            Refusal::UnknownCall => "unknownCall",
            Refusal::UnknownConnection => "unknownConnection",
            Refusal::WrongConnectionState => "wrongConnectionState",
            Refusal::WrongAgentState => "wrongAgentState",
            Refusal::DeviceExists => "deviceExists",
            Refusal::AgentExists => "agentExists",
            Refusal::NotStation => "notStation",
            Refusal::NotGroup => "notGroup",
            Refusal::DestinationBusy => "destinationBusy",
            Refusal::SameDevice => "sameDevice",
            Refusal::StationTaken => "stationTaken",
            Refusal::StationBusy => "stationBusy",
            Refusal::TooManyCalls => "tooManyCalls",
            Refusal::PlanFull => "planFull",
            Refusal::UnknownMonitor => "unknownMonitor",
            Refusal::CallerPlanned => "callerPlanned",
        }
    }
}

/// The result of a request that was not refused.
#[derive(Clone, Copy, Debug, PartialEq, Eq)]
pub enum Answer {
    Nothing,
    /// The new call.
    Call(u64),
    /// The cross reference identifier of the new monitor.
    Monitor(u64),
    /// The agent's state after the request.
    State(AgentState),
    /// The state of an occupied agent, and what follows it.
    Pending { state: AgentState, pending: Pending },
}

/// How a request ended.
#[derive(Clone, Copy, Debug, PartialEq, Eq)]
pub enum Outcome {
    Done(Answer),
    Refused(Refusal),
}
