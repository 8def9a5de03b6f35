//! phoneOffHook.

ghost use Rattle.std.specs.Prelude.{◌≡◌};
ghost use Rattle.acd_model.specs.Services.PhoneOffHook.{phone_off_hook};

use crate::call_moves::{arrive, originate};
use acd_model::{Moves, Served, gives, refuse_if};
use acd_tables::Tables;
use acd_terms::Refusal::{UnknownCall, UnknownConnection, WrongConnectionState};
use acd_terms::{Answer, Cause, DeviceId, Turn};

/// The station that began a call goes off hook, and the call is sent to the device that was called.
#[tactic(auto, unfolding(acd_model::specs::Services::PhoneOffHook::phone_off_hook))]
pub fn phone_off_hook(tables: &Tables, at: Turn, call: u64, device: DeviceId) -> Served
    ensures { result ≡ phone_off_hook tables.now at call device }
{
    let record = tables.call(call).ok_or(UnknownCall)?;
    let connection = tables.connection(call, device).ok_or(UnknownConnection)?;
    refuse_if(!connection.state.is_initiated(), WrongConnectionState)?;
    let moves = Moves::two(
        originate(&connection, record.called),
        arrive(tables, at, call, record.called, Cause::NewCall),
    );
    gives(Answer::Nothing, moves)
}
