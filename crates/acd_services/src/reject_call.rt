//! rejectCall.

ghost use Rattle.std.specs.Prelude.{◌≡◌};
ghost use Rattle.acd_model.specs.Services.RejectCall.{reject_call};

use crate::returning::return_moves;
use acd_model::{Served, gives, refuse_if};
use acd_tables::Tables;
use acd_terms::Refusal::{UnknownCall, UnknownConnection, WrongConnectionState};
use acd_terms::{Answer, DeviceId, Turn};

/// A call that distribution offered at the station, and that rings there, returns to its queue now.
#[tactic(auto, unfolding(acd_model::specs::Services::RejectCall::reject_call))]
pub fn reject_call(tables: &Tables, at: Turn, call: u64, device: DeviceId) -> Served
    ensures { result ≡ reject_call tables.now at call device }
{
    tables.call(call).ok_or(UnknownCall)?;
    let connection = tables.connection(call, device).ok_or(UnknownConnection)?;
    let is_offered = connection.state.is_alerting() && connection.is_distributed();
    refuse_if(!is_offered, WrongConnectionState)?;
    gives(Answer::Nothing, return_moves(tables, at, &connection))
}
