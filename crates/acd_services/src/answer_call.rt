//! answerCall.

ghost use Rattle.std.specs.Prelude.{◌≡◌};
ghost use Rattle.acd_model.specs.Services.AnswerCall.{occupy, answer_call};

use crate::agent_moves::become_busy;
use crate::call_moves::answer;
use acd_model::{Move, Moves, Served, gives, no_move, refuse_if};
use acd_tables::Tables;
use acd_terms::Refusal::{UnknownCall, UnknownConnection, WrongConnectionState};
use acd_terms::{Answer, ConnectionRecord, DeviceId, Turn};

// Where the connection was distributed, the agent at its station becomes busy.
#[tactic(auto, unfolding(acd_model::specs::Services::AnswerCall::occupy))]
fn occupy(tables: &Tables, at: Turn, connection: &ConnectionRecord) -> Move
    ensures { result ≡ occupy tables.now at connection.now }
{
    if !connection.is_distributed() {
        return no_move();
    }
    match tables.agent_at(connection.device) {
        None => no_move(),
        Some(agent) => become_busy(at, &agent, connection.device),
    }
}

/// An alerting connection is answered (Answer Call of ECMA-269).
#[tactic(auto, unfolding(acd_model::specs::Services::AnswerCall::answer_call))]
pub fn answer_call(tables: &Tables, at: Turn, call: u64, device: DeviceId) -> Served
    ensures { result ≡ answer_call tables.now at call device }
{
    tables.call(call).ok_or(UnknownCall)?;
    let connection = tables.connection(call, device).ok_or(UnknownConnection)?;
    refuse_if(!connection.state.is_alerting(), WrongConnectionState)?;
    let answered = answer(at.moment, &connection);
    let moves = Moves::two(answered, occupy(tables, at, &connection));
    gives(Answer::Nothing, moves)
}
