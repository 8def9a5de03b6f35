//! retrieveCall.

ghost use Rattle.std.specs.Prelude.{◌≡◌};
ghost use Rattle.acd_model.specs.Services.RetrieveCall.{retrieve_call};

use crate::call_moves::retrieve;
use acd_model::{Moves, Served, gives, refuse_if};
use acd_tables::Tables;
use acd_terms::Refusal::{StationBusy, UnknownCall, UnknownConnection, WrongConnectionState};
use acd_terms::{Answer, DeviceId};

/// A held connection is retrieved (Retrieve Call of ECMA-269).
#[tactic(auto, unfolding(acd_model::specs::Services::RetrieveCall::retrieve_call))]
pub fn retrieve_call(tables: &Tables, call: u64, device: DeviceId) -> Served
    ensures { result ≡ retrieve_call tables.now call device }
{
    tables.call(call).ok_or(UnknownCall)?;
    let connection = tables.connection(call, device).ok_or(UnknownConnection)?;
    refuse_if(!connection.state.is_hold(), WrongConnectionState)?;
    refuse_if(tables.is_live_at(device), StationBusy)?;
    gives(Answer::Nothing, Moves::one(retrieve(&connection)))
}
