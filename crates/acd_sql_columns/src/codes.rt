//! The numbers that represent states, kinds and causes, and the meaning of a number.

ghost use Rattle.std.specs.Prelude.{◌≡◌};
ghost use Rattle.acd_sql_columns.specs.Codes.{agent_code, pending_code, connection_code, kind_code, cause_code, agent_state_of, pending_of, connection_state_of, event_kind_of, cause_of};

use acd_terms::{AgentState, Cause, ConnectionState, EventKind, Pending};

pub fn agent_code(state: AgentState) -> u32
    ensures { result ≡ agent_code state }
{
    match state {
        AgentState::Null => 0,
        AgentState::NotReady => 1,
        AgentState::Ready => 2,
        AgentState::Busy => 3,
        AgentState::WorkingAfterCall => 4,
    }
}

pub fn pending_code(pending: Pending) -> u32
    ensures { result ≡ pending_code pending }
{
    match pending {
        Pending::LoggedOff => 0,
        Pending::NotReady => 1,
        Pending::Ready => 2,
        Pending::WorkingAfterCall => 4,
    }
}

pub fn connection_code(state: ConnectionState) -> u32
    ensures { result ≡ connection_code state }
{
    match state {
        ConnectionState::Initiated => 1,
        ConnectionState::Alerting => 2,
        ConnectionState::Connected => 3,
        ConnectionState::Hold => 4,
        ConnectionState::Queued => 5,
        ConnectionState::Fail => 6,
    }
}

pub fn cause_code(cause: Cause) -> u32
    ensures { result ≡ cause_code cause }
{
    match cause {
        Cause::NewCall => 1,
        Cause::Distributed => 2,
        Cause::Deflected => 3,
        Cause::Transferred => 4,
        Cause::NoAnswer => 5,
        Cause::Busy => 6,
    }
}

pub fn kind_code(kind: EventKind) -> u32
    ensures { result ≡ kind_code kind }
{
    match kind {
        EventKind::ServiceInitiated => 1,
        EventKind::Originated => 2,
        EventKind::Queued => 3,
        EventKind::Delivered => 4,
        EventKind::Diverted => 5,
        EventKind::Established => 6,
        EventKind::Held => 7,
        EventKind::Retrieved => 8,
        EventKind::Transferred => 9,
        EventKind::Failed => 10,
        EventKind::ConnectionCleared => 11,
        EventKind::CallCleared => 12,
        EventKind::AgentLoggedOn => 13,
        EventKind::AgentLoggedOff => 14,
        EventKind::AgentNotReady => 15,
        EventKind::AgentReady => 16,
        EventKind::AgentBusy => 17,
        EventKind::AgentWorkingAfterCall => 18,
    }
}

#[tactic(auto, unfolding(crate::specs::Codes::agent_state_of))]
pub fn agent_state_of(code: u64) -> Option<AgentState>
    ensures { result ≡ agent_state_of code }
{
    match code {
        0 => Some(AgentState::Null),
        1 => Some(AgentState::NotReady),
        2 => Some(AgentState::Ready),
        3 => Some(AgentState::Busy),
        4 => Some(AgentState::WorkingAfterCall),
        _ => None,
    }
}

#[tactic(auto, unfolding(crate::specs::Codes::pending_of))]
pub fn pending_of(code: u64) -> Option<Pending>
    ensures { result ≡ pending_of code }
{
    match code {
        0 => Some(Pending::LoggedOff),
        1 => Some(Pending::NotReady),
        2 => Some(Pending::Ready),
        4 => Some(Pending::WorkingAfterCall),
        _ => None,
    }
}

#[tactic(auto, unfolding(crate::specs::Codes::connection_state_of))]
pub fn connection_state_of(code: u64) -> Option<ConnectionState>
    ensures { result ≡ connection_state_of code }
{
    match code {
        1 => Some(ConnectionState::Initiated),
        2 => Some(ConnectionState::Alerting),
        3 => Some(ConnectionState::Connected),
        4 => Some(ConnectionState::Hold),
        5 => Some(ConnectionState::Queued),
        6 => Some(ConnectionState::Fail),
        _ => None,
    }
}

#[tactic(auto, unfolding(crate::specs::Codes::cause_of))]
pub fn cause_of(code: u64) -> Option<Cause>
    ensures { result ≡ cause_of code }
{
    match code {
        1 => Some(Cause::NewCall),
        2 => Some(Cause::Distributed),
        3 => Some(Cause::Deflected),
        4 => Some(Cause::Transferred),
        5 => Some(Cause::NoAnswer),
        6 => Some(Cause::Busy),
        _ => None,
    }
}

#[tactic(auto, unfolding(crate::specs::Codes::event_kind_of))]
pub fn event_kind_of(code: u64) -> Option<EventKind>
    ensures { result ≡ event_kind_of code }
{
    match code {
        1 => Some(EventKind::ServiceInitiated),
        2 => Some(EventKind::Originated),
        3 => Some(EventKind::Queued),
        4 => Some(EventKind::Delivered),
        5 => Some(EventKind::Diverted),
        6 => Some(EventKind::Established),
        7 => Some(EventKind::Held),
        8 => Some(EventKind::Retrieved),
        9 => Some(EventKind::Transferred),
        10 => Some(EventKind::Failed),
        11 => Some(EventKind::ConnectionCleared),
        12 => Some(EventKind::CallCleared),
        13 => Some(EventKind::AgentLoggedOn),
        14 => Some(EventKind::AgentLoggedOff),
        15 => Some(EventKind::AgentNotReady),
        16 => Some(EventKind::AgentReady),
        17 => Some(EventKind::AgentBusy),
        18 => Some(EventKind::AgentWorkingAfterCall),
        _ => None,
    }
}
