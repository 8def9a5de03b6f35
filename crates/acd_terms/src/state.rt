//! The states of agents and connections.

ghost use Rattle.std.specs.Prelude.{◌≡◌};
ghost use Rattle.acd_terms.specs.States.{is_ready, is_null, is_busy, is_working_after_call, is_initiated, is_alerting, is_connected, is_hold, is_queued, is_fail, is_answered, is_live, is_occupying, state_wanted, agent_state_name, pending_name};

/// The agent states of ECMA-269. `Null` is an agent who is not logged on.
#[derive(Clone, Copy, Debug, PartialEq, Eq)]
pub enum AgentState {
    Null,
    NotReady,
    Ready,
    Busy,
    WorkingAfterCall,
}

impl AgentState {
    pub fn is_null(self) -> bool
        ensures { result ≡ is_null self }
    {
        matches!(self, AgentState::Null)
    }

    pub fn is_ready(self) -> bool
        ensures { result ≡ is_ready self }
    {
        matches!(self, AgentState::Ready)
    }

    pub fn is_busy(self) -> bool
        ensures { result ≡ is_busy self }
    {
        matches!(self, AgentState::Busy)
    }

    pub fn is_working_after_call(self) -> bool
        ensures { result ≡ is_working_after_call self }
    {
        matches!(self, AgentState::WorkingAfterCall)
    }

    /// The state as it is written.
    pub fn name(self) -> &'static str
        ensures { result.now ≡ agent_state_name self }
    {
        match self {
            AgentState::Null => "null",
            AgentState::NotReady => "notReady",
            AgentState::Ready => "ready",
            AgentState::Busy => "busy",
            AgentState::WorkingAfterCall => "workingAfterCall",
        }
    }
}

/// The states that Set Agent State asks for, but for loggedOn. An occupied agent waits for one of them.
#[derive(Clone, Copy, Debug, PartialEq, Eq)]
pub enum Pending {
    LoggedOff,
    NotReady,
    Ready,
    WorkingAfterCall,
}

impl Pending {
    /// The agent state to which it leads.
    pub fn state(self) -> AgentState
        ensures { result ≡ state_wanted self }
    {
        match self {
            Pending::LoggedOff => AgentState::Null,
            Pending::NotReady => AgentState::NotReady,
            Pending::Ready => AgentState::Ready,
            Pending::WorkingAfterCall => AgentState::WorkingAfterCall,
        }
    }

    /// The state as it is written.
    pub fn name(self) -> &'static str
        ensures { result.now ≡ pending_name self }
    {
        match self {
            Pending::LoggedOff => "loggedOff",
            Pending::NotReady => "notReady",
            Pending::Ready => "ready",
            Pending::WorkingAfterCall => "workingAfterCall",
        }
    }
}

/// The connection states of ECMA-269, but for null: a connection in null is not kept.
#[derive(Clone, Copy, Debug, PartialEq, Eq)]
pub enum ConnectionState {
    Initiated,
    Alerting,
    Connected,
    Hold,
    Queued,
    Fail,
}

impl ConnectionState {
    pub fn is_initiated(self) -> bool
        ensures { result ≡ is_initiated self }
    {
        matches!(self, ConnectionState::Initiated)
    }

    pub fn is_alerting(self) -> bool
        ensures { result ≡ is_alerting self }
    {
        matches!(self, ConnectionState::Alerting)
    }

    pub fn is_connected(self) -> bool
        ensures { result ≡ is_connected self }
    {
        matches!(self, ConnectionState::Connected)
    }

    pub fn is_hold(self) -> bool
        ensures { result ≡ is_hold self }
    {
        matches!(self, ConnectionState::Hold)
    }

    pub fn is_queued(self) -> bool
        ensures { result ≡ is_queued self }
    {
        matches!(self, ConnectionState::Queued)
    }

    pub fn is_fail(self) -> bool
        ensures { result ≡ is_fail self }
    {
        matches!(self, ConnectionState::Fail)
    }

    /// Connected or on hold.
    pub fn is_answered(self) -> bool
        ensures { result ≡ is_answered self }
    {
        matches!(self, ConnectionState::Connected | ConnectionState::Hold)
    }

    /// Initiated, alerting or connected: of these a station has one at most.
    pub fn is_live(self) -> bool
        ensures { result ≡ is_live self }
    {
        matches!(
            self,
            ConnectionState::Initiated | ConnectionState::Alerting | ConnectionState::Connected
        )
    }

    /// Live or on hold: with one of these a station is not idle.
    pub fn is_occupying(self) -> bool
        ensures { result ≡ is_occupying self }
    {
        matches!(
            self,
            ConnectionState::Initiated
                | ConnectionState::Alerting
                | ConnectionState::Connected
                | ConnectionState::Hold
        )
    }
}
