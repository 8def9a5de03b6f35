//! holdCall.

ghost use Rattle.std.specs.Prelude.{◌≡◌};
ghost use Rattle.acd_model.specs.Services.HoldCall.{hold_call};

use crate::call_moves::hold;
use acd_model::{Moves, Served, gives, refuse_if};
use acd_tables::Tables;
use acd_terms::Refusal::{NotStation, UnknownCall, UnknownConnection, WrongConnectionState};
use acd_terms::{Answer, DeviceId};

/// A connected station holds (Hold Call of ECMA-269).
#[tactic(auto, unfolding(acd_model::specs::Services::HoldCall::hold_call))]
pub fn hold_call(tables: &Tables, call: u64, device: DeviceId) -> Served
    ensures { result ≡ hold_call tables.now call device }
{
    tables.call(call).ok_or(UnknownCall)?;
    let connection = tables.connection(call, device).ok_or(UnknownConnection)?;
    refuse_if(!tables.is_station(device), NotStation)?;
    refuse_if(!connection.state.is_connected(), WrongConnectionState)?;
    gives(Answer::Nothing, Moves::one(hold(&connection)))
}
