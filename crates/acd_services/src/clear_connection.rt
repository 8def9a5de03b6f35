//! clearConnection.

ghost use Rattle.std.specs.Prelude.{◌≡◌};
ghost use Rattle.acd_model.specs.Services.ClearConnection.{waiting_group, cleared_group, clear_other, release_other, clear_connection};

use crate::call_moves::{clear, end_call};
use crate::releasing::{ending_of, release};
use acd_model::{Move, Moves, Served, gives, no_move};
use acd_tables::Tables;
use acd_terms::Refusal::{UnknownCall, UnknownConnection};
use acd_terms::{Answer, ConnectionRecord, DeviceId, Turn};

fn waiting_group(connection: &ConnectionRecord) -> Option<DeviceId>
    ensures { result ≡ waiting_group connection.now }
{
    if connection.state.is_queued() || connection.state.is_alerting() {
        connection.group
    } else {
        None
    }
}

// The group in which the call waits, or from which it rings.
fn cleared_group(
    connection: &ConnectionRecord,
    other: &Option<ConnectionRecord>,
) -> Option<DeviceId>
    ensures { result ≡ cleared_group connection.now other.now }
{
    match other {
        None => waiting_group(connection),
        Some(other) => waiting_group(connection).or(waiting_group(other)),
    }
}

fn clear_other(other: &Option<ConnectionRecord>) -> Move
    ensures { result ≡ clear_other other.now }
{
    match other {
        None => no_move(),
        Some(other) => clear(other),
    }
}

fn release_other(tables: &Tables, at: Turn, other: &Option<ConnectionRecord>) -> Move
    ensures { result ≡ release_other tables.now at other.now }
{
    match other {
        None => no_move(),
        Some(other) => release(tables, at, other, ending_of(other)),
    }
}

/// The call ends (Clear Connection of ECMA-269, which here clears the other party too).
#[tactic(auto, unfolding(acd_model::specs::Services::ClearConnection::clear_connection))]
pub fn clear_connection(tables: &Tables, at: Turn, call: u64, device: DeviceId) -> Served
    ensures { result ≡ clear_connection tables.now at call device }
{
    tables.call(call).ok_or(UnknownCall)?;
    let connection = tables.connection(call, device).ok_or(UnknownConnection)?;
    let other = tables.other_of(&connection);
    let moves = Moves::five(
        clear(&connection),
        clear_other(&other),
        end_call(connection.call, cleared_group(&connection, &other)),
        release(tables, at, &connection, ending_of(&connection)),
        release_other(tables, at, &other),
    );
    gives(Answer::Nothing, moves)
}
