//! singleStepTransfer.

ghost use Rattle.std.specs.Prelude.{◌≡◌};
ghost use Rattle.acd_model.specs.Services.SingleStepTransfer.{is_answered_by, single_step_transfer};

use crate::call_moves::{arrive, transfer};
use crate::destinations::{is_busy_station, is_in_call};
use crate::releasing::{ending_of, release};
use acd_model::{Moves, Served, gives, refuse_if};
use acd_tables::Tables;
use acd_terms::Refusal::{
    DestinationBusy, NotStation, SameDevice, UnknownCall, UnknownConnection, UnknownDevice,
    WrongConnectionState,
};
use acd_terms::{Answer, Cause, ConnectionRecord, DeviceId, Turn};

fn is_answered_by(other: &Option<ConnectionRecord>) -> bool
    ensures { result ≡ is_answered_by other.now }
{
    match other {
        None => false,
        Some(other) => other.state.is_answered(),
    }
}

/// A connected station gives its answered call away (Single Step Transfer Call of ECMA-269).
#[tactic(auto, unfolding(acd_model::specs::Services::SingleStepTransfer::single_step_transfer))]
pub fn single_step_transfer(
    tables: &Tables,
    at: Turn,
    call: u64,
    device: DeviceId,
    to: DeviceId,
) -> Served
    ensures { result ≡ single_step_transfer tables.now at call device to }
{
    tables.call(call).ok_or(UnknownCall)?;
    let connection = tables.connection(call, device).ok_or(UnknownConnection)?;
    refuse_if(!tables.is_station(device), NotStation)?;
    let other = tables.other_of(&connection);
    let talks = connection.state.is_connected() && is_answered_by(&other);
    refuse_if(!talks, WrongConnectionState)?;
    refuse_if(!tables.is_planned(to), UnknownDevice)?;
    refuse_if(is_in_call(tables, call, to), SameDevice)?;
    refuse_if(is_busy_station(tables, to), DestinationBusy)?;
    let moves = Moves::three(
        transfer(&connection, to),
        arrive(tables, at, call, to, Cause::Transferred),
        release(tables, at, &connection, ending_of(&connection)),
    );
    gives(Answer::Nothing, moves)
}
