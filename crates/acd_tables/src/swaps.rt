//! The entries that a change of one record adds to the exact sets, and those that it removes.

ghost use Rattle.std.specs.Prelude.{◌≡◌, ◌&&◌, ◌||◌, Some, None, is_some, if◌then◌else◌};
ghost use Rattle.acd_model.specs.Scans.{agent_of, connection_of};
ghost use Rattle.acd_model.specs.Writes.{with_agent};
ghost use Rattle.acd_tables.specs.IndexedRows.{IsIndexed, is_free, is_busying};
ghost use Rattle.acd_tables.specs.Uses.{is_there_and, is_busy_with};
ghost use Rattle.acd_tables.specs.Swaps.{SwapsTo, differ, IsAt, queue_entry, ready_entry, with_or_without, swapped_seat};

use crate::indexes::{Entries, Indexes, Swap, leaving_alone, leaving_but, only};
use crate::records::Records;
use crate::single_group::SingleGroup;
use crate::uses::{Use, agent_at, is_in_use, uses};
use acd_terms::{AgentId, AgentRecord, ConnectionRecord, DeviceArray, DeviceId};

// The place of a queued connection.
fn queue_entry(connection: &Option<ConnectionRecord>) -> Option<(SingleGroup, (u64, u64))>
    ensures { result ≡ queue_entry connection.now }
{
    match connection {
        None => None,
        Some(c) => {
            if c.state.is_queued() {
                Some((SingleGroup::new(c.device), (c.place.unwrap_or(0), c.call)))
            } else {
                None
            }
        }
    }
}

// The place of the agent in each of its groups, if ready.
fn able_entry(agent: &AgentRecord) -> Option<(DeviceArray, (u64, AgentId))>
    ensures { result ≡ ready_entry (Some agent.now) }
{
    if agent.state.is_ready() {
        Some((agent.groups.to_few(), (agent.stamp, agent.agent)))
    } else {
        None
    }
}

fn ready_entry(agent: &Option<AgentRecord>) -> Option<(DeviceArray, (u64, AgentId))>
    ensures { result ≡ ready_entry agent.now }
{
    match agent {
        None => None,
        Some(agent) => able_entry(agent),
    }
}

fn only_not<E: Copy>(entry: &Option<E>, taken: bool) -> Option<E>
    ensures { result ≡ (if taken then None else entry.now) }
{
    if taken { None } else { *entry }
}

fn is_busying(connection: &Option<ConnectionRecord>) -> bool
    ensures { result ≡ is_there_and is_busying connection.now }
{
    match connection {
        None => false,
        Some(c) => uses(Use::Busying, c),
    }
}

// The station is busy with the new connection of the call, or with another.
fn is_busy_with(
    records: &Records,
    indexes: &Indexes,
    call: u64,
    device: DeviceId,
    new: &Option<ConnectionRecord>,
) -> bool
    requires { IsIndexed records.now indexes.now }
    ensures { result ≡ is_busy_with records.now device call new.now }
{
    is_busying(new) || is_in_use(records, &indexes.lines, device, Some(call), Use::Busying)
}

// There is a ready agent at the device, whom the new connection of the call or another one keeps from an offer. A group
// has no agent, so nobody looks at its calls.
fn is_kept(
    records: &Records,
    indexes: &Indexes,
    call: u64,
    device: DeviceId,
    new: &Option<ConnectionRecord>,
    seat: &Option<(DeviceArray, (u64, AgentId))>,
) -> bool
    requires { IsIndexed records.now indexes.now }
    ensures { result ≡ (is_some seat.now && is_busy_with records.now device call new.now) }
{
    seat.is_some() && is_busy_with(records, indexes, call, device, new)
}

fn is_other(a: bool, b: bool) -> bool
    ensures { result ≡ differ a b }
{
    if a { !b } else { b }
}

// The place of the ready agent at the device, where the connection makes the station busy or free. One
// that is as before, or that waits in a group, does neither.
fn swapped_seat(
    records: &Records,
    indexes: &Indexes,
    device: DeviceId,
    old: &Option<ConnectionRecord>,
    new: &Option<ConnectionRecord>,
) -> Option<(DeviceArray, (u64, AgentId))>
    requires { IsIndexed records.now indexes.now }
    ensures { result ≡ swapped_seat records.now device old.now new.now }
{
    if is_other(is_busying(old), is_busying(new)) {
        ready_entry(&agent_at(records, &indexes.seats, device))
    } else {
        None
    }
}

/// The change of the sets where the connection of the call at the device is put, or removed.
pub(crate) fn connection_swap(
    records: &Records,
    indexes: &Indexes,
    call: u64,
    device: DeviceId,
    old: &Option<ConnectionRecord>,
    new: &Option<ConnectionRecord>,
) -> Swap
    requires indexed { IsIndexed records.now indexes.now }
    requires found { old.now ≡ connection_of records.now call device }
    requires at { IsAt call device new.now }
    ensures { SwapsTo records.now (with_or_without records.now call device new.now) result }
{
    let before = queue_entry(old);
    let after = queue_entry(new);
    let seat = swapped_seat(records, indexes, device, old, new);
    let busy = is_kept(records, indexes, call, device, new, &seat);
    let leaving = leaving_alone(&before, &after);
    Swap {
        entering: Entries {
            queue: after,
            ready: only_not(&seat, busy),
        },
        leaving: Entries {
            queue: leaving,
            ready: only(&seat, busy),
        },
    }
}

// No connection at the station, if there is one, keeps it from an offer.
#[tactic(auto, unfolding(crate::specs::IndexedRows::is_busy_at))]
fn is_free(records: &Records, indexes: &Indexes, station: Option<DeviceId>) -> bool
    requires { IsIndexed records.now indexes.now }
    ensures { result ≡ is_free records.now station }
{
    match station {
        None => false,
        Some(station) => !is_in_use(records, &indexes.lines, station, None, Use::Busying),
    }
}

// There is a place, and nothing keeps the station of it from an offer.
fn may_be_offered(
    records: &Records,
    indexes: &Indexes,
    entry: &Option<(DeviceArray, (u64, AgentId))>,
    station: Option<DeviceId>,
) -> bool
    requires { IsIndexed records.now indexes.now }
    ensures { result ≡ (is_some entry.now && is_free records.now station) }
{
    entry.is_some() && is_free(records, indexes, station)
}

/// The change of the sets where the agent is put.
pub(crate) fn agent_swap(
    records: &Records,
    indexes: &Indexes,
    old: &Option<AgentRecord>,
    item: &AgentRecord,
) -> Swap
    requires indexed { IsIndexed records.now indexes.now }
    requires found { old.now ≡ agent_of records.now item.now.agent }
    ensures { SwapsTo records.now (with_agent records.now item.now) result }
{
    let entry = able_entry(item);
    let free = may_be_offered(records, indexes, &entry, item.station);
    let after = only(&entry, free);
    let before = ready_entry(old);
    let leaving = leaving_but(&before, &after);
    Swap {
        entering: Entries {
            queue: None,
            ready: after,
        },
        leaving: Entries {
            queue: None,
            ready: leaving,
        },
    }
}
