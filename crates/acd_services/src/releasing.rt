//! An agent whose distributed connection ends, and what becomes of it.

ghost use Rattle.std.specs.Prelude.{◌≡◌};
ghost use Rattle.acd_model.specs.Release.{release_of, released, ending_of, release};

use crate::agent_moves::{go_to, wait_for};
use acd_model::{Ending, Move, Release, no_move};
use acd_tables::Tables;
use acd_terms::{AgentRecord, AgentState, ConnectionRecord, DeviceId, Pending, Turn};

// The table of release.
fn release_of(how: Ending, pending: Option<Pending>) -> Release
    ensures { result ≡ release_of how pending }
{
    match (how, pending) {
        (Ending::Answered, None) => Release::Goes(AgentState::WorkingAfterCall),
        (Ending::Unanswered, None | Some(Pending::Ready)) => Release::Stays,
        (Ending::NoAnswer, None | Some(Pending::Ready)) => Release::Goes(AgentState::NotReady),
        (_, Some(wanted)) => Release::Goes(wanted.state()),
    }
}

fn released(at: Turn, agent: &AgentRecord, station: DeviceId, release: Release) -> Move
    ensures { result ≡ released at agent.now station release }
{
    match release {
        Release::Stays => wait_for(agent, None),
        Release::Goes(state) => go_to(at, agent, station, state),
    }
}

/// How a connection ends that is cleared, deflected or transferred.
pub fn ending_of(connection: &ConnectionRecord) -> Ending
    ensures { result ≡ ending_of connection.now }
{
    if connection.state.is_answered() {
        Ending::Answered
    } else {
        Ending::Unanswered
    }
}

/// Where a distributed connection ends, the agent at its station is released.
#[tactic(auto, unfolding(acd_model::specs::Release::release))]
pub fn release(tables: &Tables, at: Turn, connection: &ConnectionRecord, how: Ending) -> Move
    ensures { result ≡ release tables.now at connection.now how }
{
    if !connection.is_distributed() {
        return no_move();
    }
    match tables.agent_at(connection.device) {
        None => no_move(),
        Some(agent) => {
            let next = release_of(how, agent.pending);
            released(at, &agent, connection.device, next)
        }
    }
}
