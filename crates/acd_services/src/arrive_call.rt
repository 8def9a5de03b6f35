//! arriveCall.

ghost use Rattle.std.specs.Prelude.{◌≡◌, ◌<◌, ◌^◌, ◌-◌};
ghost use Rattle.acd_model.specs.Services.ArriveCall.{arrive_call};

use crate::call_moves::{arrive, begin, connect_caller};
use acd_model::{Moves, Served, gives, refuse_if};
use acd_tables::Tables;
use acd_terms::Refusal::{CallerPlanned, TooManyCalls, UnknownDevice};
use acd_terms::{Answer, CallRecord, Cause, DeviceId, Turn};

/// A call comes in from outside the plan.
#[tactic(auto, unfolding(acd_model::specs::Services::ArriveCall::arrive_call))]
pub fn arrive_call(tables: &Tables, at: Turn, caller: DeviceId, called: DeviceId) -> Served
    requires { tables.now.last_call < 2 ^ 64 - 1 }
    ensures { result ≡ arrive_call tables.now at caller called }
{
    refuse_if(tables.is_planned(caller), CallerPlanned)?;
    refuse_if(!tables.is_planned(called), UnknownDevice)?;
    refuse_if(!tables.has_room_for_call(), TooManyCalls)?;
    let call = tables.last_call() + 1;
    let record = CallRecord {
        call,
        caller,
        called,
        since: at.moment,
    };
    let moves = Moves::three(
        begin(record),
        connect_caller(call, caller),
        arrive(tables, at, call, called, Cause::NewCall),
    );
    gives(Answer::Call(call), moves)
}
