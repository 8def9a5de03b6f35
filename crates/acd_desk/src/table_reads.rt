//! Reads of the tables of a desk.

ghost use Rattle.std.specs.Prelude.{◌≡◌, ◌++◌, [], ◌∷◌, map, IfOk, OnOk};
ghost use Rattle.std.specs.List.{cons_option};
ghost use Rattle.std.specs.List.Sorted.{IsStrictlySortedBy};
ghost use Rattle.acd_model.specs.Scans.{connections_of};
ghost use Rattle.acd_model.specs.Rules.First.{BreaksNoRule};
ghost use Rattle.acd_tables.specs.IndexedRows.{pair_cmp};
ghost use Rattle.acd_desk.specs.Reads.ReadAnswers.{text_read, agent_read, call_read, station_at, planned_at, device_read, connections_of_device, queue_read, report_read, live_call, snapshot_of, snapshot_read};

use crate::group_states::group_states;
use acd_codec::{
    LiveCall, PlannedDevice, PlannedStation, Snapshot, agent_text, call_text, device_text,
    queue_text, snapshot_text,
};
use acd_reports::groups_report;
use acd_tables::Tables;
use acd_terms::{AgentId, CallRecord, ConnectionRecord, DeviceId, Listed, StationRecord};
use std::alloc::{AllocError, Global};
use std::collections::BTreeSet;

/// An agent, or none where the tables hold no such thing; so of the others.
pub(crate) fn agent_read(
    alloc: Global,
    tables: &Tables,
    agent: AgentId,
) -> Result<Option<String>, AllocError>
    ensures { IfOk result (λ text. text_read text ≡ agent_read tables.now agent) }
{
    match tables.agent(agent) {
        None => Ok(None),
        Some(agent) => Ok(Some(agent_text(alloc, &agent)?)),
    }
}

// A separate push, for any type.
fn push_copy<T: Copy + Drop>(list: &mut Vec<T>, item: &T) -> Result<(), AllocError>
    ensures { OnOk result (list.new.items ≡ list.old.items ++ item.now ∷ []) }
{
    list.push(*item)?;
    Ok(())
}

// Puts it at the end, if there is one.
fn push_if<T: Copy + Drop>(list: &mut Vec<T>, item: &Option<T>) -> Result<(), AllocError>
    ensures { OnOk result (list.new.items ≡ list.old.items ++ cons_option item.now []) }
{
    match item {
        None => Ok(()),
        Some(item) => push_copy(list, item),
    }
}

// The connections of the call.
fn parties(alloc: Global, tables: &Tables, call: u64) -> Result<Vec<ConnectionRecord>, AllocError>
    requires { BreaksNoRule tables.now }
    ensures { IfOk result (λ v. v.items ≡ connections_of tables.now call) }
{
    let [first, second] = tables.connections_of(call);
    let mut parties = Vec::with_capacity(alloc, 2)?;
    push_if(&mut parties, &first)?;
    push_if(&mut parties, &second)?;
    Ok(parties)
}

pub(crate) fn call_read(
    alloc: Global,
    tables: &Tables,
    call: u64,
) -> Result<Option<String>, AllocError>
    requires { BreaksNoRule tables.now }
    ensures { IfOk result (λ text. text_read text ≡ call_read tables.now call) }
{
    match tables.call(call) {
        None => Ok(None),
        Some(record) => {
            let parties = parties(alloc, tables, call)?;
            Ok(Some(call_text(alloc, &record, &parties)?))
        }
    }
}

// The station with who is logged on there, and its connections.
fn station_at(tables: &Tables, station: DeviceId) -> Result<PlannedStation, AllocError>
    ensures { IfOk result (λ found. found ≡ station_at tables.now station) }
{
    let connections = tables.connections_at(station)?;
    Ok(PlannedStation {
        device: station,
        agent: tables.agent_at(station).map(|agent| agent.agent),
        connections: Listed::new(connections),
    })
}

// What is planned at the device.
fn device_at(tables: &Tables, device: DeviceId) -> Result<Option<PlannedDevice>, AllocError>
    ensures { IfOk result (λ found. found ≡ planned_at tables.now device) }
{
    if let Some(group) = tables.group(device) {
        return Ok(Some(PlannedDevice::Group(group)));
    }
    if !tables.is_station(device) {
        return Ok(None);
    }
    let station = station_at(tables, device)?;
    Ok(Some(PlannedDevice::Station(station)))
}

pub(crate) fn device_read(
    alloc: Global,
    tables: &Tables,
    device: DeviceId,
) -> Result<Option<String>, AllocError>
    ensures { IfOk result (λ text. text_read text ≡ device_read tables.now device) }
{
    match device_at(tables, device)? {
        None => Ok(None),
        Some(device) => Ok(Some(device_text(alloc, &device)?)),
    }
}

// The connections of the calls in a queue, in its order.
fn waiting_in(
    alloc: Global,
    tables: &Tables,
    group: DeviceId,
    queue: &BTreeSet<(u64, u64)>,
) -> Result<Vec<ConnectionRecord>, AllocError>
    ensures waiting { IfOk result
        (λ v. v.items ≡ connections_of_device tables.now group queue.now.keys) }
    ensures sorted { IsStrictlySortedBy pair_cmp queue.now.keys }
{
    let mut waiting = Vec::new(alloc);
    for (_, call) in queue {
        if let Some(connection) = tables.connection(*call, group) {
            push_copy(&mut waiting, &connection)?;
        }
    }
    Ok(waiting)
}

// The agents of a ready set, in its order.
fn agents_in(alloc: Global, ready: &BTreeSet<(u64, AgentId)>) -> Result<Vec<AgentId>, AllocError>
    ensures agents { IfOk result (λ v. v.items ≡ map (λ p. p.1) ready.now.keys) }
    ensures sorted { IsStrictlySortedBy pair_cmp ready.now.keys }
{
    let mut agents = Vec::new(alloc);
    for (_, agent) in ready {
        agents.push(*agent)?;
    }
    Ok(agents)
}

pub(crate) fn queue_read(
    alloc: Global,
    tables: &Tables,
    group: DeviceId,
) -> Result<Option<String>, AllocError>
    requires { BreaksNoRule tables.now }
    ensures { IfOk result (λ text. text_read text ≡ queue_read tables.now group) }
{
    let Some(queue) = tables.queue_of(group) else {
        return Ok(None);
    };
    let Some(ready) = tables.ready_of(group) else {
        return Ok(None);
    };
    let waiting = waiting_in(alloc, tables, group, queue)?;
    let agents = agents_in(alloc, ready)?;
    Ok(Some(queue_text(alloc, group, &waiting, &agents)?))
}

#[tactic(auto, unfolding(acd_reports::specs::QueueReport::queue_report))]
pub(crate) fn report_read(
    alloc: Global,
    tables: &Tables,
    moment: u32,
) -> Result<Option<String>, AllocError>
    requires { BreaksNoRule tables.now }
    ensures { IfOk result (λ text. text_read text ≡ report_read tables.now moment) }
{
    let states = group_states(alloc, tables)?;
    let report = groups_report(alloc, &states, moment.max(tables.last_moment()))?;
    Ok(Some(report))
}

// Each call with its connections.
fn live_calls(
    alloc: Global,
    tables: &Tables,
    calls: &[CallRecord],
) -> Result<Vec<LiveCall>, AllocError>
    requires { BreaksNoRule tables.now }
    ensures { IfOk result (λ v. v.items ≡ map (live_call tables.now) calls.now) }
{
    let mut live = Vec::with_capacity(alloc, calls.len())?;
    for call in calls {
        let connections = Listed::new(parties(alloc, tables, call.call)?);
        live.push(LiveCall {
            call: *call,
            connections,
        })?;
    }
    Ok(live)
}

// Each station with who is logged on there, and its connections.
fn stations_in(
    alloc: Global,
    tables: &Tables,
    stations: &[StationRecord],
) -> Result<Vec<PlannedStation>, AllocError>
    ensures { IfOk result (λ v. v.items ≡ map (λ t. station_at tables.now t.device) stations.now) }
{
    let mut seen = Vec::with_capacity(alloc, stations.len())?;
    for station in stations {
        seen.push(station_at(tables, station.device)?)?;
    }
    Ok(seen)
}

#[tactic(auto, unfolding(crate::specs::Reads::ReadAnswers::snapshot_of))]
fn snapshot_of(alloc: Global, tables: &Tables) -> Result<Snapshot, AllocError>
    requires { BreaksNoRule tables.now }
    ensures { IfOk result (λ s. s ≡ snapshot_of tables.now) }
{
    let rows = tables.rows()?;
    let calls = live_calls(alloc, tables, rows.calls.as_slice())?;
    let stations = stations_in(alloc, tables, rows.stations.as_slice())?;
    Ok(Snapshot {
        agents: rows.agents,
        calls: Listed::new(calls),
        groups: rows.groups,
        last: rows.last_event,
        moment: rows.last_moment,
        monitors: rows.monitors,
        stations: Listed::new(stations),
    })
}

pub(crate) fn snapshot_read(alloc: Global, tables: &Tables) -> Result<Option<String>, AllocError>
    requires { BreaksNoRule tables.now }
    ensures { IfOk result (λ text. text_read text ≡ snapshot_read tables.now) }
{
    let snapshot = snapshot_of(alloc, tables)?;
    Ok(Some(snapshot_text(alloc, &snapshot)?))
}
