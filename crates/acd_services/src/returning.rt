//! How an offered call that isn't answered returns to its queue.

ghost use Rattle.std.specs.Prelude.{◌≡◌};
ghost use Rattle.acd_model.specs.Tick.{return_to, return_moves};

use crate::call_moves::{divert, go_back};
use crate::releasing::release;
use acd_model::{Ending, Move, Moves};
use acd_tables::Tables;
use acd_terms::{Cause, ConnectionRecord, DeviceId, Turn};

/// The call returns to that group, and the agent is released.
#[inline(always)]
pub fn return_to(
    tables: &Tables,
    at: Turn,
    connection: &ConnectionRecord,
    group: DeviceId,
) -> [Move; 3]
    ensures { result ≡ return_to tables.now at connection.now (Some group) }
{
    [
        divert(connection, group, Cause::NoAnswer),
        go_back(connection, group),
        release(tables, at, connection, Ending::NoAnswer),
    ]
}

/// The call returns to the group that offered it, and the agent is released. A connection without a group has no moves.
pub fn return_moves(tables: &Tables, at: Turn, connection: &ConnectionRecord) -> Moves
    ensures { result ≡ return_moves tables.now at connection.now }
{
    match connection.group {
        None => Moves::none(),
        Some(group) => {
            let [diverted, queued, released] = return_to(tables, at, connection, group);
            Moves::three(diverted, queued, released)
        }
    }
}
