//! All that a desk has as one JSON text.

ghost use Rattle.std.specs.Prelude.{◌≡◌, IfOk, string_bytes};
ghost use Rattle.acd_codec.specs.Tokens.{AddsParts};
ghost use Rattle.acd_codec.specs.SnapshotTexts.{monitor_parts, snapshot_parts, snapshot_text};

use crate::read_texts::{
    Extent, PlannedStation, put_agent_members, put_call_members, put_group_members,
    put_station_members,
};
use crate::writing::{Form, begun, ended, put_device, put_list, put_number};
use acd_terms::{AgentRecord, CallRecord, ConnectionRecord, GroupRecord, Listed, MonitorRecord};
use json::Writer;
use std::alloc::{AllocError, Global};

// A desk with a few records fits.
const ROOM: usize = 4096;

/// A live call.
#[derive(Debug, Drop)]
pub struct LiveCall {
    pub call: CallRecord,
    /// Its connections, in the order in which they are to be written.
    pub connections: Listed<ConnectionRecord>,
}

/// The content of a snapshot. Its lists are written in the order in which they are given.
#[derive(Debug, Drop)]
pub struct Snapshot {
    pub agents: Listed<AgentRecord>,
    pub calls: Listed<LiveCall>,
    pub groups: Listed<GroupRecord>,
    /// The number of the last event.
    pub last: u64,
    /// The moment of the last executed request, in seconds.
    pub moment: u32,
    pub monitors: Listed<MonitorRecord>,
    pub stations: Listed<PlannedStation>,
}

// Agents in a snapshot.
struct Agents;

impl Form for Agents {
    type Item = AgentRecord;

    ghost use Rattle.acd_codec.specs.SnapshotTexts.{agent_data};

    ghost data_of = { agent_data };

    fn write(out: &mut Writer, agent: &AgentRecord) -> Result<(), AllocError> {
        out.begin_object()?;
        put_agent_members(out, Extent::All, agent)?;
        out.end_object()
    }
}

// Calls in a snapshot.
struct Calls;

impl Form for Calls {
    type Item = LiveCall;

    ghost use Rattle.acd_codec.specs.SnapshotTexts.{call_data};

    ghost data_of = { call_data };

    fn write(out: &mut Writer, live: &LiveCall) -> Result<(), AllocError> {
        out.begin_object()?;
        put_call_members(out, Extent::All, &live.call, live.connections.as_slice())?;
        out.end_object()
    }
}

// Groups in a snapshot.
struct Groups;

impl Form for Groups {
    type Item = GroupRecord;

    ghost use Rattle.acd_codec.specs.SnapshotTexts.{group_data};

    ghost data_of = { group_data };

    fn write(out: &mut Writer, group: &GroupRecord) -> Result<(), AllocError> {
        out.begin_object()?;
        put_group_members(out, Extent::All, group)?;
        out.end_object()
    }
}

fn put_monitor(out: &mut Writer, monitor: &MonitorRecord) -> Result<(), AllocError>
    ensures { AddsParts result out.old out.new (monitor_parts monitor.now) }
{
    put_number(out, "after", monitor.after_event)?;
    put_device(out, "device", Some(monitor.device))?;
    put_number(out, "monitor", monitor.monitor)
}

// Monitors in a snapshot.
struct Monitors;

impl Form for Monitors {
    type Item = MonitorRecord;

    ghost use Rattle.acd_codec.specs.SnapshotTexts.{monitor_data};

    ghost data_of = { monitor_data };

    fn write(out: &mut Writer, monitor: &MonitorRecord) -> Result<(), AllocError> {
        out.begin_object()?;
        put_monitor(out, monitor)?;
        out.end_object()
    }
}

// Stations in a snapshot.
struct Stations;

impl Form for Stations {
    type Item = PlannedStation;

    ghost use Rattle.acd_codec.specs.SnapshotTexts.{station_data};

    ghost data_of = { station_data };

    fn write(out: &mut Writer, station: &PlannedStation) -> Result<(), AllocError> {
        out.begin_object()?;
        put_station_members(out, station)?;
        out.end_object()
    }
}

fn put_snapshot(out: &mut Writer, snapshot: &Snapshot) -> Result<(), AllocError>
    ensures { AddsParts result out.old out.new (snapshot_parts snapshot.now) }
{
    put_list::<Agents>(out, "agents", snapshot.agents.as_slice())?;
    put_list::<Calls>(out, "calls", snapshot.calls.as_slice())?;
    put_list::<Groups>(out, "groups", snapshot.groups.as_slice())?;
    put_number(out, "last", snapshot.last)?;
    put_number(out, "moment", u64::from(snapshot.moment))?;
    put_list::<Monitors>(out, "monitors", snapshot.monitors.as_slice())?;
    put_list::<Stations>(out, "stations", snapshot.stations.as_slice())
}

/// The text of a snapshot.
pub fn snapshot_text(alloc: Global, snapshot: &Snapshot) -> Result<String, AllocError>
    ensures { IfOk result (λ s. string_bytes s ≡ snapshot_text snapshot.now) }
{
    let mut out = begun(alloc, ROOM)?;
    put_snapshot(&mut out, snapshot)?;
    ended(out)
}
