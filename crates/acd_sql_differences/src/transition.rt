//! The changes from the tables of one state to those of another, in an order in which each change leaves all references
//! and keys as the schema wants them.

ghost use Rattle.std.specs.Prelude.{◌≡◌, ◌↔◌, ◌++◌, filter, map, IfOk, OnOk, IsTrue};
ghost use Rattle.acd_sql_differences.specs.ChangeOrder.{shared_station, agent_station, unseated, stays, plan_differences, traffic_differences, rows_differences};
ghost use Rattle.acd_sql_differences.specs.Transition.{with_plan, AddsDifferences, AreWhole, AreWholeIfKept, Lead};
ghost use Rattle.acd_sql_differences.specs.DifferenceSteps.{keyed};

use crate::difference::{TableRecord, row_changes};
use acd_model::Change;
use acd_terms::{AgentRecord, ConnectionRecord, DeviceId, Rows, find};
use std::alloc::{AllocError, Global};

// Adds them all, for any type: the goals of a separate function are short.
fn extend<T: Copy + Drop>(list: &mut Vec<T>, more: &[T]) -> Result<(), AllocError>
    ensures { OnOk result (list.new.items ≡ list.old.items ++ more.now) }
{
    list.extend_from_slice(more)
}

// Adds the changes from one list to another.
fn add_changes<R: TableRecord>(
    alloc: Global,
    changes: &mut Vec<Change>,
    held: &[R],
    new: &[R],
) -> Result<(), AllocError>
    ensures { OnOk result
        (AddsDifferences (keyed R.key_of R.Key.cmp R.eq R.changes) held.now new.now changes) }
{
    let more = row_changes(alloc, held, new)?;
    extend(changes, &more)
}

// The station that both have.
fn shared_station(one: Option<DeviceId>, other: Option<DeviceId>) -> Option<DeviceId>
    ensures { result ≡ shared_station one other }
{
    match (one, other) {
        (Some(one), Some(other)) => { if one == other { Some(one) } else { None } }
        _ => None,
    }
}

fn agent_station(agent: Option<AgentRecord>) -> Option<DeviceId>
    ensures { result ≡ agent_station agent }
{
    match agent {
        Some(agent) => agent.station,
        None => None,
    }
}

// The agent as it is held, but without a station that is to be another's, or nobody's.
#[tactic(auto, unfolding(crate::specs::ChangeOrder::unseated))]
fn unseated(agent: &AgentRecord, new: &[AgentRecord]) -> AgentRecord
    ensures { result ≡ unseated new.now agent.now }
{
    let next = agent_station(find(new, agent.agent));
    AgentRecord {
        station: shared_station(agent.station, next),
        ..*agent
    }
}

// The agents that are held, each without a station that it gives up.
fn all_unseated(
    alloc: Global,
    held: &[AgentRecord],
    new: &[AgentRecord],
) -> Result<Vec<AgentRecord>, AllocError>
    ensures { IfOk result (λ agents. agents.items ≡ map (unseated new.now) held.now) }
{
    let mut agents = Vec::new(alloc);
    for agent in held {
        extend(&mut agents, &[unseated(agent, new)])?;
    }
    Ok(agents)
}

// Whether a connection of its key is among these.
#[tactic(auto, unfolding(crate::specs::ChangeOrder::stays))]
fn stays(new: &[ConnectionRecord], connection: &ConnectionRecord) -> bool
    ensures { result ≡ stays new.now connection.now }
{
    find(new, (connection.call, connection.device)).is_some()
}

// The connections that are held and whose keys stay.
fn staying(
    alloc: Global,
    held: &[ConnectionRecord],
    new: &[ConnectionRecord],
) -> Result<Vec<ConnectionRecord>, AllocError>
    ensures { IfOk result (λ connections. connections.items ≡ filter (stays new.now) held.now) }
{
    let mut connections = Vec::new(alloc);
    for connection in held {
        if stays(new, connection) {
            extend(&mut connections, &[*connection])?;
        }
    }
    Ok(connections)
}

// Groups and stations before agents, who give their stations up before others take them.
fn plan_changes(alloc: Global, held: &Rows, new: &Rows) -> Result<Vec<Change>, AllocError>
    ensures lead { IfOk result
        (λ changes. Lead held.now (with_plan held.now new.now) changes.items) }
    ensures exact { IfOk result (λ changes. changes.items ≡ plan_differences held.now new.now) }
{
    let agents = all_unseated(alloc, held.agents.as_slice(), new.agents.as_slice())?;
    let mut changes = Vec::new(alloc);
    add_changes(
        alloc,
        &mut changes,
        held.groups.as_slice(),
        new.groups.as_slice(),
    )?;
    add_changes(
        alloc,
        &mut changes,
        held.stations.as_slice(),
        new.stations.as_slice(),
    )?;
    add_changes(alloc, &mut changes, held.agents.as_slice(), &agents)?;
    add_changes(alloc, &mut changes, &agents, new.agents.as_slice())?;
    Ok(changes)
}

// Connections go before their calls, and calls are put before their connections.
fn traffic_changes(alloc: Global, held: &Rows, new: &Rows) -> Result<Vec<Change>, AllocError>
    ensures lead { IfOk result
        (λ changes. Lead (with_plan held.now new.now) new.now changes.items) }
    ensures exact { IfOk result (λ changes. changes.items ≡ traffic_differences held.now new.now) }
{
    let connections = staying(
        alloc,
        held.connections.as_slice(),
        new.connections.as_slice(),
    )?;
    let mut changes = Vec::new(alloc);
    add_changes(
        alloc,
        &mut changes,
        held.connections.as_slice(),
        &connections,
    )?;
    add_changes(
        alloc,
        &mut changes,
        held.calls.as_slice(),
        new.calls.as_slice(),
    )?;
    add_changes(
        alloc,
        &mut changes,
        &connections,
        new.connections.as_slice(),
    )?;
    add_changes(
        alloc,
        &mut changes,
        held.monitors.as_slice(),
        new.monitors.as_slice(),
    )?;
    Ok(changes)
}

/// The changes from the tables that are held to new ones, in an order that keeps each reference and each
/// key at each step, where both states keep them.
///
/// Groups and stations come before agents, and agents give their stations up before others take them. Connections are
/// removed before their calls, and calls are put before their connections. [`Change::Nothing`] names a group, a station
/// or an agent that is missing.
pub fn rows_changes(alloc: Global, held: &Rows, new: &Rows) -> Result<Vec<Change>, AllocError>
    ensures lead { IfOk result (λ changes. Lead held.now new.now changes.items) }
    ensures exact { IfOk result (λ changes. changes.items ≡ rows_differences held.now new.now) }
    ensures whole { IfOk result (λ changes. AreWholeIfKept held.now new.now changes.items) }
{
    let mut changes = plan_changes(alloc, held, new)?;
    let more = traffic_changes(alloc, held, new)?;
    extend(&mut changes, &more)?;
    Ok(changes)
}

/// Whether no record is missing that is never removed.
pub fn are_whole(changes: &[Change]) -> bool
    ensures { IsTrue result ↔ AreWhole changes.now }
{
    for change in changes {
        if matches!(change, Change::Nothing) {
            return false;
        }
    }
    true
}
