//! addAgent.

ghost use Rattle.std.specs.Prelude.{◌≡◌};
ghost use Rattle.acd_model.specs.Services.AddAgent.{add_agent};

use acd_model::{Change, Moves, Served, gives, refuse_if, silent};
use acd_tables::Tables;
use acd_terms::Refusal::{AgentExists, PlanFull};
use acd_terms::{AgentId, AgentRecord, AgentState, Answer, Groups, Name, Turn};

/// An agent is planned, who is logged on nowhere.
#[tactic(auto, unfolding(acd_model::specs::Services::AddAgent::add_agent))]
pub fn add_agent(tables: &Tables, at: Turn, agent: AgentId, name: Name) -> Served
    ensures { result ≡ add_agent tables.now at agent name }
{
    refuse_if(tables.agent(agent).is_some(), AgentExists)?;
    refuse_if(!tables.has_room_for_agent(), PlanFull)?;
    let planned = AgentRecord {
        agent,
        name,
        state: AgentState::Null,
        pending: None,
        station: None,
        groups: Groups::none(),
        stamp: at.stamp,
        since: at.moment,
    };
    let moves = Moves::one(silent(Change::PutAgent(planned)));
    gives(Answer::Nothing, moves)
}
