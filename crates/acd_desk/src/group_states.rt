//! The groups as a queue report shows them, by the indexes of the tables.

ghost use Rattle.std.specs.Prelude.{◌≡◌, filter, length, map, IfOk};
ghost use Rattle.std.specs.List.Sorted.{IsStrictlySortedBy};
ghost use Rattle.acd_model.specs.Rules.First.{BreaksNoRule};
ghost use Rattle.acd_model.specs.Rules.Occupied.{rings_from};
ghost use Rattle.acd_model.specs.Scans.{connection_of};
ghost use Rattle.acd_tables.specs.IndexedRows.{is_ringing, pair_cmp};
ghost use Rattle.acd_reports.specs.QueueReport.{group_state};
ghost use Rattle.acd_desk.specs.Reads.GroupStates.{first_of, lesser_number, queued_of};

use acd_reports::GroupState;
use acd_tables::Tables;
use acd_terms::{ConnectionRecord, DeviceId, GroupRecord};
use std::alloc::{AllocError, Global};
use std::collections::BTreeSet;

fn lesser_number(one: Option<u32>, other: Option<u32>) -> Option<u32>
    ensures { result ≡ lesser_number one other }
{
    match (one, other) {
        (Some(n), Some(m)) => Some(n.min(m)),
        (Some(n), None) => Some(n),
        (None, other) => other,
    }
}

// When the call entered the group, if it waits there.
fn queued_at(tables: &Tables, call: u64, group: DeviceId) -> Option<u32>
    ensures { result ≡ queued_of (connection_of tables.now call group) }
{
    match tables.connection(call, group) {
        None => None,
        Some(connection) => connection.queued,
    }
}

// The least moment at which one of the calls of a queue entered it.
fn first_in(tables: &Tables, group: DeviceId, queue: &BTreeSet<(u64, u64)>) -> Option<u32>
    ensures first { result ≡ first_of tables.now group queue.now.keys }
    ensures sorted { IsStrictlySortedBy pair_cmp queue.now.keys }
{
    let mut first = None;
    for (_, call) in queue {
        first = lesser_number(first, queued_at(tables, *call, group));
    }
    first
}

// How many of the offers that ring are of the group.
fn ringing_of(ringing: &[ConnectionRecord], group: DeviceId) -> usize
    ensures { result ≡ length (filter (rings_from group) ringing.now) }
{
    ringing
        .iter()
        .filter(|c| c.group == Some(group) && c.state.is_alerting())
        .count()
}

// The state of a planned group for the report, beside the offers that ring. A group that isn't planned is refused as if
// there were no memory.
fn group_state(
    tables: &Tables,
    ringing: &[ConnectionRecord],
    group: &GroupRecord,
) -> Result<GroupState, AllocError>
    requires rules { BreaksNoRule tables.now }
    requires ringing { ringing.now ≡ filter is_ringing tables.now.connections }
    ensures { IfOk result (λ state. state ≡ group_state tables.now group.now) }
{
    let Some(queue) = tables.queue_of(group.device) else {
        return Err(AllocError);
    };
    let first_queued = first_in(tables, group.device, queue);
    Ok(GroupState {
        group: *group,
        waiting: queue.len(),
        ringing: ringing_of(ringing, group.device),
        first_queued,
    })
}

fn states_of(
    alloc: Global,
    tables: &Tables,
    ringing: &[ConnectionRecord],
    groups: &[GroupRecord],
) -> Result<Vec<GroupState>, AllocError>
    requires rules { BreaksNoRule tables.now }
    requires ringing { ringing.now ≡ filter is_ringing tables.now.connections }
    ensures { IfOk result (λ states. states.items ≡ map (group_state tables.now) groups.now) }
{
    let mut states = Vec::with_capacity(alloc, groups.len())?;
    for group in groups {
        states.push(group_state(tables, ringing, group)?)?;
    }
    Ok(states)
}

/// The state of each group for the report. It looks at the groups, the calls that wait and the offers that ring.
pub(crate) fn group_states(alloc: Global, tables: &Tables) -> Result<Vec<GroupState>, AllocError>
    requires { BreaksNoRule tables.now }
    ensures { IfOk result
        (λ states. states.items ≡ map (group_state tables.now) tables.now.groups) }
{
    let ringing = tables.ringing()?;
    let groups = tables.groups()?;
    states_of(alloc, tables, &ringing, groups.as_slice())
}
