//! The moves of agents.

ghost use Rattle.std.specs.Prelude.{◌≡◌};
ghost use Rattle.acd_model.specs.AgentMoves.{while_logged_on, groups_while_logged_on, in_state, state_report, go_to, go_from, log_on_at, become_busy, wait_for};

use acd_model::{Change, Move, no_move, reported, silent};
use acd_terms::{AgentId, AgentRecord, AgentState, DeviceId, Groups, Pending, Report, Turn};

fn while_logged_on(state: AgentState, device: Option<DeviceId>) -> Option<DeviceId>
    ensures { result ≡ while_logged_on state device }
{
    match state {
        AgentState::Null => None,
        _ => device,
    }
}

fn groups_while_logged_on(state: AgentState, groups: Groups) -> Groups
    ensures { result ≡ groups_while_logged_on state groups }
{
    match state {
        AgentState::Null => Groups::none(),
        _ => groups,
    }
}

fn in_state(state: AgentState, at: Turn, agent: &AgentRecord) -> AgentRecord
    ensures { result ≡ in_state state at agent.now }
{
    AgentRecord {
        state,
        pending: None,
        station: while_logged_on(state, agent.station),
        groups: groups_while_logged_on(state, agent.groups),
        stamp: at.stamp,
        since: at.moment,
        ..*agent
    }
}

fn state_report(state: AgentState, agent: AgentId, station: DeviceId) -> Report
    ensures { result ≡ state_report state agent station }
{
    match state {
        AgentState::Null => Report::AgentLoggedOff { agent, station },
        AgentState::NotReady => Report::AgentNotReady { agent, station },
        AgentState::Ready => Report::AgentReady { agent, station },
        AgentState::Busy => Report::AgentBusy { agent, station },
        AgentState::WorkingAfterCall => Report::AgentWorkingAfterCall { agent, station },
    }
}

/// The agent at a station changes to a state, with nothing pending.
pub fn go_to(at: Turn, agent: &AgentRecord, station: DeviceId, state: AgentState) -> Move
    ensures { result ≡ go_to at agent.now station state }
{
    reported(
        Change::PutAgent(in_state(state, at, agent)),
        state_report(state, agent.agent, station),
    )
}

/// The agent changes to a state, from the station at which it is logged on.
pub fn go_from(at: Turn, agent: &AgentRecord, state: AgentState) -> Move
    ensures { result ≡ go_from at agent.now agent.now.station state }
{
    match agent.station {
        None => no_move(),
        Some(station) => go_to(at, agent, station, state),
    }
}

/// The agent logs on. The report names the group of an agent who is in just one.
pub fn log_on_at(at: Turn, agent: &AgentRecord, station: DeviceId, groups: Groups) -> Move
    ensures { result ≡ log_on_at at agent.now station groups }
{
    let logged_on = AgentRecord {
        state: AgentState::NotReady,
        pending: None,
        station: Some(station),
        groups,
        stamp: at.stamp,
        since: at.moment,
        ..*agent
    };
    reported(
        Change::PutAgent(logged_on),
        Report::AgentLoggedOn {
            agent: agent.agent,
            station,
            group: groups.only(),
        },
    )
}

/// The agent becomes busy, and what is pending stays.
pub fn become_busy(at: Turn, agent: &AgentRecord, station: DeviceId) -> Move
    ensures { result ≡ become_busy at agent.now station }
{
    let busy = AgentRecord {
        state: AgentState::Busy,
        stamp: at.stamp,
        since: at.moment,
        ..*agent
    };
    reported(
        Change::PutAgent(busy),
        state_report(AgentState::Busy, agent.agent, station),
    )
}

/// The agent's pending state.
pub fn wait_for(agent: &AgentRecord, pending: Option<Pending>) -> Move
    ensures { result ≡ wait_for agent.now pending }
{
    silent(Change::PutAgent(AgentRecord { pending, ..*agent }))
}
