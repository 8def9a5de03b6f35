//! makeCall.

ghost use Rattle.std.specs.Prelude.{◌≡◌, ◌<◌, ◌^◌, ◌-◌};
ghost use Rattle.acd_model.specs.Services.MakeCall.{make_call};

use crate::call_moves::{begin, initiate};
use acd_model::{Moves, Served, gives, refuse_if};
use acd_tables::Tables;
use acd_terms::Refusal::{NotStation, SameDevice, StationBusy, TooManyCalls, UnknownDevice};
use acd_terms::{Answer, CallRecord, DeviceId};

/// A station begins a call (Make Call of ECMA-269).
#[tactic(auto, unfolding(acd_model::specs::Services::MakeCall::make_call))]
pub fn make_call(tables: &Tables, moment: u32, device: DeviceId, called: DeviceId) -> Served
    requires { tables.now.last_call < 2 ^ 64 - 1 }
    ensures { result ≡ make_call tables.now moment device called }
{
    refuse_if(!tables.is_planned(device), UnknownDevice)?;
    refuse_if(!tables.is_station(device), NotStation)?;
    refuse_if(!tables.is_planned(called), UnknownDevice)?;
    refuse_if(called == device, SameDevice)?;
    refuse_if(tables.is_live_at(device), StationBusy)?;
    refuse_if(!tables.has_room_for_call(), TooManyCalls)?;
    let call = tables.last_call() + 1;
    let record = CallRecord {
        call,
        caller: device,
        called,
        since: moment,
    };
    let moves = Moves::two(begin(record), initiate(call, device));
    gives(Answer::Call(call), moves)
}
