//! The table of services, and the states that can be asked for.

ghost use Rattle.std.specs.Prelude.{◌≡◌};
ghost use Rattle.acd_codec.specs.Services.{service_name, service_of, taken_apart, requested_state_name, requested_state_of};

use acd_terms::{AgentId, Command, DeviceId, Name, Pending, Priority, Requested, Seconds, Serial};

/// A service, without its members.
#[derive(Clone, Copy, Debug, PartialEq, Eq)]
pub enum Service {
    AddGroup,
    AddStation,
    AddAgent,
    ArriveCall,
    MakeCall,
    PhoneOffHook,
    AnswerCall,
    HoldCall,
    RetrieveCall,
    ClearConnection,
    DeflectCall,
    SingleStepTransfer,
    SetAgentState,
    MonitorStart,
    MonitorStop,
    Tick,
    SetGroupPriority,
    RejectCall,
    ChangeGroup,
    ChangeAgent,
}

/// The members of a service, without the key.
#[derive(Clone, Copy)]
pub enum Details {
    Group {
        device: DeviceId,
        name: Name,
        ring: Seconds,
        wrap: Seconds,
    },
    Agent {
        agent: AgentId,
        name: Name,
    },
    Device {
        device: DeviceId,
    },
    Arrival {
        caller: DeviceId,
        called: DeviceId,
    },
    Making {
        device: DeviceId,
        called: DeviceId,
    },
    Connection {
        call: Serial,
        device: DeviceId,
    },
    Transfer {
        call: Serial,
        device: DeviceId,
        to: DeviceId,
    },
    State {
        agent: AgentId,
        requested: Requested,
    },
    Monitor {
        monitor: Serial,
    },
    Priority {
        device: DeviceId,
        priority: Priority,
    },
    Nothing,
}

// The table of services: the name of each, what reads its members, and these. It hands all to a macro, after what that is given.
macro_rules! services {
    ($what:ident $(, $with:ident)*) => {
        $what!(
            $($with,)*
            AddGroup "addGroup" add_group_in Group { device, name, ring, wrap },
            AddStation "addStation" add_station_in Device { device },
            AddAgent "addAgent" add_agent_in Agent { agent, name },
            ArriveCall "arriveCall" arrive_call_in Arrival { caller, called },
            MakeCall "makeCall" make_call_in Making { device, called },
            PhoneOffHook "phoneOffHook" phone_off_hook_in Connection { call, device },
            AnswerCall "answerCall" answer_call_in Connection { call, device },
            HoldCall "holdCall" hold_call_in Connection { call, device },
            RetrieveCall "retrieveCall" retrieve_call_in Connection { call, device },
            ClearConnection "clearConnection" clear_connection_in Connection { call, device },
            DeflectCall "deflectCall" deflect_call_in Transfer { call, device, to },
            SingleStepTransfer "singleStepTransfer" single_step_transfer_in Transfer { call, device, to },
            SetAgentState "setAgentState" set_agent_state_in State { agent, requested },
            MonitorStart "monitorStart" monitor_start_in Device { device },
            MonitorStop "monitorStop" monitor_stop_in Monitor { monitor },
            Tick "tick" tick_in Nothing {},
            SetGroupPriority "setGroupPriority" set_group_priority_in Priority { device, priority },
            RejectCall "rejectCall" reject_call_in Connection { call, device },
            ChangeGroup "changeGroup" change_group_in Group { device, name, ring, wrap },
            ChangeAgent "changeAgent" change_agent_in Agent { agent, name }
        )
    };
}

pub(crate) use services;

macro_rules! apart {
    ($command:ident, $($service:ident $name:literal $read:ident $details:ident { $($field:ident),* }),*) => {
        match *$command {
            $(Command::$service { $($field),* } => (Service::$service, Details::$details { $($field),* }),)*
        }
    };
}

macro_rules! named {
    ($text:ident, $($service:ident $name:literal $read:ident $details:ident $fields:tt),*) => {
        match $text {
            $($name => Some(Service::$service),)*
            _ => None,
        }
    };
}

macro_rules! name {
    ($of:ident, $($service:ident $name:literal $read:ident $details:ident $fields:tt),*) => {
        match $of {
            $(Service::$service => $name,)*
        }
    };
}

/// The service of a command, and its members.
pub fn taken_apart(command: &Command) -> (Service, Details)
    ensures { result ≡ taken_apart command.now }
{
    services!(apart, command)
}

impl Service {
    /// The service with this name.
    pub fn named(text: &str) -> Option<Service>
        ensures { result ≡ service_of text.now }
    {
        services!(named, text)
    }

    /// The name as it is written.
    pub fn name(self) -> &'static str
        ensures { result.now ≡ service_name self }
    {
        services!(name, self)
    }
}

/// The states that Set Agent State asks for, without the members that only loggedOn has.
#[derive(Clone, Copy, Debug, PartialEq, Eq)]
pub enum RequestedState {
    LoggedOn,
    State(Pending),
}

impl RequestedState {
    /// The state that this name asks for.
    pub fn named(text: &str) -> Option<RequestedState>
        ensures { result ≡ requested_state_of text.now }
    {
        match text {
            "loggedOn" => Some(RequestedState::LoggedOn),
            "loggedOff" => Some(RequestedState::State(Pending::LoggedOff)),
            "notReady" => Some(RequestedState::State(Pending::NotReady)),
            "ready" => Some(RequestedState::State(Pending::Ready)),
            "workingAfterCall" => Some(RequestedState::State(Pending::WorkingAfterCall)),
            _ => None,
        }
    }

    /// The name as it is written.
    pub fn name(self) -> &'static str
        ensures { result.now ≡ requested_state_name self }
    {
        match self {
            RequestedState::LoggedOn => "loggedOn",
            RequestedState::State(state) => state.name(),
        }
    }
}
