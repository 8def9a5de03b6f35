//! setAgentState.

ghost use Rattle.std.specs.Prelude.{◌≡◌};
ghost use Rattle.acd_terms.specs.States.{is_in};
ghost use Rattle.acd_model.specs.Services.SetAgentState.{all_groups, log_on, go_or_wait, change_state, set_agent_state};

use crate::agent_moves::{go_from, log_on_at, wait_for};
use acd_model::{Moves, Served, gives, refuse_if};
use acd_tables::Tables;
use acd_terms::Refusal::{
    NotGroup, NotStation, StationTaken, UnknownAgent, UnknownDevice, WrongAgentState,
};
use acd_terms::{
    AgentId, AgentRecord, AgentState, Answer, DeviceId, Pending, Refusal, Requested, SomeGroups,
    Turn,
};

// The agent is in the state that is wanted for.
fn is_in(state: AgentState, wanted: Pending) -> bool
    ensures { result ≡ is_in state wanted }
{
    match (state, wanted) {
        (AgentState::Null, Pending::LoggedOff) => true,
        (AgentState::NotReady, Pending::NotReady) => true,
        (AgentState::Ready, Pending::Ready) => true,
        (AgentState::WorkingAfterCall, Pending::WorkingAfterCall) => true,
        _ => false,
    }
}

// Each is a planned group.
#[tactic(auto, unfolding(acd_model::specs::ServiceAnswers::refuse_if))]
fn all_groups(tables: &Tables, groups: &[DeviceId]) -> Result<(), Refusal>
    ensures { result ≡ all_groups tables.now groups.now }
{
    for group in groups {
        refuse_if(!tables.is_planned(*group), UnknownDevice)?;
        refuse_if(!tables.is_group(*group), NotGroup)?;
    }
    Ok(())
}

// An agent in null logs on at a station, in some groups.
#[tactic(auto, unfolding(acd_model::specs::Services::SetAgentState::log_on, acd_model::specs::ServiceAnswers::refuse_if))]
fn log_on(tables: &Tables, at: Turn, agent: AgentId, device: DeviceId, groups: SomeGroups) -> Served
    ensures { result ≡ log_on tables.now at agent device groups }
{
    let agent = tables.agent(agent).ok_or(UnknownAgent)?;
    refuse_if(!agent.state.is_null(), WrongAgentState)?;
    refuse_if(!tables.is_planned(device), UnknownDevice)?;
    refuse_if(!tables.is_station(device), NotStation)?;
    refuse_if(tables.agent_at(device).is_some(), StationTaken)?;
    let groups = groups.groups();
    all_groups(tables, groups.as_slice())?;
    let moves = Moves::one(log_on_at(at, &agent, device, groups));
    gives(Answer::State(AgentState::NotReady), moves)
}

// An occupied agent waits for the state, any other changes to it.
fn go_or_wait(tables: &Tables, at: Turn, agent: &AgentRecord, wanted: Pending) -> Served
    ensures { result ≡ go_or_wait tables.now at agent.now wanted }
{
    let state = agent.state;
    if tables.is_occupied(agent) {
        let answer = Answer::Pending {
            state,
            pending: wanted,
        };
        return gives(answer, Moves::one(wait_for(agent, Some(wanted))));
    }
    if is_in(state, wanted) {
        return gives(Answer::State(state), Moves::none());
    }
    let next = wanted.state();
    gives(Answer::State(next), Moves::one(go_from(at, agent, next)))
}

// An agent who is logged on asks for another state.
#[tactic(auto, unfolding(acd_model::specs::Services::SetAgentState::change_state))]
fn change_state(tables: &Tables, at: Turn, agent: AgentId, wanted: Pending) -> Served
    ensures { result ≡ change_state tables.now at agent wanted }
{
    let agent = tables.agent(agent).ok_or(UnknownAgent)?;
    refuse_if(agent.state.is_null(), WrongAgentState)?;
    go_or_wait(tables, at, &agent, wanted)
}

/// Set Agent State of ECMA-269.
pub fn set_agent_state(tables: &Tables, at: Turn, agent: AgentId, requested: Requested) -> Served
    ensures { result ≡ set_agent_state tables.now at agent requested }
{
    match requested {
        Requested::LoggedOn { device, groups } => log_on(tables, at, agent, device, groups),
        Requested::State(wanted) => change_state(tables, at, agent, wanted),
    }
}
