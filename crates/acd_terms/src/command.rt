//! The requests to the switch.

use crate::groups::SomeGroups;
use crate::id::{AgentId, DeviceId};
use crate::name::{Name, Requester};
use crate::number::{Invoke, Priority, Seconds, Serial};
use crate::state::Pending;

/// The states that Set Agent State asks for.
#[derive(Clone, Copy, Debug, PartialEq, Eq)]
pub enum Requested {
    LoggedOn {
        device: DeviceId,
        groups: SomeGroups,
    },
    State(Pending),
}

/// A service with its members. Answer Call, Hold Call, Retrieve Call, Clear Connection, Deflect Call, Single Step
/// Transfer, Set Agent State, Make Call, Monitor Start and Monitor Stop are services of ECMA-269; the others are this
/// desk's extensions.
#[derive(Clone, Copy, Debug, PartialEq, Eq)]
pub enum Command {
    AddGroup {
        device: DeviceId,
        name: Name,
        ring: Seconds,
        wrap: Seconds,
    },
    AddStation {
        device: DeviceId,
    },
    AddAgent {
        agent: AgentId,
        name: Name,
    },
    /// A call comes in from outside.
    ArriveCall {
        caller: DeviceId,
        called: DeviceId,
    },
    MakeCall {
        device: DeviceId,
        called: DeviceId,
    },
    /// The station that made the call goes off hook, and the call is sent to the called device.
    PhoneOffHook {
        call: Serial,
        device: DeviceId,
    },
    AnswerCall {
        call: Serial,
        device: DeviceId,
    },
    HoldCall {
        call: Serial,
        device: DeviceId,
    },
    RetrieveCall {
        call: Serial,
        device: DeviceId,
    },
    ClearConnection {
        call: Serial,
        device: DeviceId,
    },
    DeflectCall {
        call: Serial,
        device: DeviceId,
        to: DeviceId,
    },
    SingleStepTransfer {
        call: Serial,
        device: DeviceId,
        to: DeviceId,
    },
    SetAgentState {
        agent: AgentId,
        requested: Requested,
    },
    MonitorStart {
        device: DeviceId,
    },
    MonitorStop {
        monitor: Serial,
    },
    /// Time has passed: offers and after-call work that lasted long enough end.
    Tick,
    SetGroupPriority {
        device: DeviceId,
        priority: Priority,
    },
    /// A call that distribution offered at the station isn't answered, and returns to its queue.
    RejectCall {
        call: Serial,
        device: DeviceId,
    },
    /// A planned group gets another name, ring and wrap.
    ChangeGroup {
        device: DeviceId,
        name: Name,
        ring: Seconds,
        wrap: Seconds,
    },
    /// A planned agent gets another name.
    ChangeAgent {
        agent: AgentId,
        name: Name,
    },
}

/// A command with its key: who sends it, and its number among the sender's requests.
#[derive(Clone, Copy, Debug, PartialEq, Eq)]
pub struct Request {
    pub requester: Requester,
    pub invoke: Invoke,
    pub command: Command,
}

/// A request and the moment at which it comes in, in seconds.
#[derive(Clone, Copy, Debug, PartialEq, Eq)]
pub struct Arrival {
    pub moment: u32,
    pub request: Request,
}

/// The turn at which a request is executed: the moment, in seconds, and the stamp, which numbers the
/// executed requests from 1 on.
#[derive(Clone, Copy, Debug)]
pub struct Turn {
    pub moment: u32,
    pub stamp: u64,
}
