//! changeAgent.

ghost use Rattle.std.specs.Prelude.{◌≡◌};
ghost use Rattle.acd_model.specs.Services.ChangeAgent.{change_agent};

use acd_model::{Change, Moves, Served, gives, silent};
use acd_tables::Tables;
use acd_terms::Refusal::UnknownAgent;
use acd_terms::{AgentId, AgentRecord, Answer, Name};

/// An agent gets another name. State, stamp and moment stay as they are, and so does the agent's turn.
#[tactic(auto, unfolding(acd_model::specs::Services::ChangeAgent::change_agent))]
pub fn change_agent(tables: &Tables, agent: AgentId, name: Name) -> Served
    ensures { result ≡ change_agent tables.now agent name }
{
    let agent = tables.agent(agent).ok_or(UnknownAgent)?;
    let changed = AgentRecord { name, ..agent };
    gives(
        Answer::Nothing,
        Moves::one(silent(Change::PutAgent(changed))),
    )
}
