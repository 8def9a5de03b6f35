//! deflectCall.

ghost use Rattle.std.specs.Prelude.{◌≡◌};
ghost use Rattle.acd_model.specs.Services.DeflectCall.{deflect_call};

use crate::call_moves::{arrive, divert};
use crate::destinations::{is_busy_station, is_in_call};
use crate::releasing::{ending_of, release};
use acd_model::{Moves, Served, gives, refuse_if};
use acd_tables::Tables;
use acd_terms::Refusal::{
    DestinationBusy, SameDevice, UnknownCall, UnknownConnection, UnknownDevice,
    WrongConnectionState,
};
use acd_terms::{Answer, Cause, DeviceId, Turn};

/// An alerting or queued call is sent to another device (Deflect Call of ECMA-269).
#[tactic(auto, unfolding(acd_model::specs::Services::DeflectCall::deflect_call))]
pub fn deflect_call(tables: &Tables, at: Turn, call: u64, device: DeviceId, to: DeviceId) -> Served
    ensures { result ≡ deflect_call tables.now at call device to }
{
    tables.call(call).ok_or(UnknownCall)?;
    let connection = tables.connection(call, device).ok_or(UnknownConnection)?;
    let waits = connection.state.is_alerting() || connection.state.is_queued();
    refuse_if(!waits, WrongConnectionState)?;
    refuse_if(!tables.is_planned(to), UnknownDevice)?;
    refuse_if(is_in_call(tables, call, to), SameDevice)?;
    refuse_if(is_busy_station(tables, to), DestinationBusy)?;
    let moves = Moves::three(
        divert(&connection, to, Cause::Deflected),
        arrive(tables, at, call, to, Cause::Deflected),
        release(tables, at, &connection, ending_of(&connection)),
    );
    gives(Answer::Nothing, moves)
}
