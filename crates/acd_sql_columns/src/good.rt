//! Each value that is written of a record is in its range: the record's types see to that, but for the numbers that a
//! caller has tested.

ghost use Rattle.std.specs.Prelude.{◌≡◌, ◌≤◌, ◌<◌, ◌^◌, IfSome, Ok, length, true};
ghost use Rattle.std.specs.Ordering.{nat_cmp};
ghost use Rattle.acd_terms.specs.Columns.{columns_of};
ghost use Rattle.acd_terms.specs.Lists.{Every, ascends};
ghost use Rattle.acd_codec.specs.RequestForms.{IsAgent, IsDevice, IsSerial};
ghost use Rattle.acd_sql_columns.specs.InRange.{IsGoodAgent, IsGoodCall, IsGoodConnection, IsGoodEvent, IsGoodGroup, IsGoodKept, IsGoodMeta, IsGoodMonitor, IsGoodStation, IsReported, IsStamp, IsStatus};
ghost use Rattle.acd_sql_columns.specs.Reports.{is_formed};

use crate::meta::Meta;
use crate::shape;
use acd_book::Kept;
use acd_codec::reads_back;
use acd_terms::{
    AgentId, AgentRecord, CallRecord, ConnectionRecord, DeviceId, Event, GroupRecord,
    MonitorRecord, StationRecord,
};

fn moment(moment: u32)
    ensures { moment < 2 ^ 32 }
{}

fn moment_or_none(value: Option<u32>)
    ensures { IfSome value (λ n. n < 2 ^ 32) }
{
    if let Some(value) = value {
        moment(value);
    }
}

fn device_or_none(device: Option<DeviceId>)
    ensures { IfSome device IsDevice }
{
    if let Some(device) = device {
        device.number();
    }
}

fn agent_or_none(agent: Option<AgentId>)
    ensures { IfSome agent IsAgent }
{
    if let Some(agent) = agent {
        agent.number();
    }
}

fn devices(devices: &[DeviceId])
    ensures { Every IsDevice devices.now }
{
    for device in devices {
        device.number();
    }
}

/// Of the limits and the counters.
pub fn meta_is_good(meta: &Meta)
    ensures { IsGoodMeta meta.now }
{
    moment(meta.last_moment);
}

/// Of a group.
pub fn group_is_good(group: &GroupRecord)
    ensures { IsGoodGroup group.now }
{
    group.device.number();
    group.name.as_bytes();
    group.ring.number();
    group.wrap.number();
    group.priority.number();
}

/// Of a station.
pub fn station_is_good(station: &StationRecord)
    ensures { IsGoodStation station.now }
{
    station.device.number();
}

/// Of an agent.
pub fn agent_is_good(agent: &AgentRecord)
    requires { IsStamp agent.now.stamp }
    ensures { IsGoodAgent agent.now }
{
    agent.agent.number();
    agent.name.as_bytes();
    device_or_none(agent.station);
    let groups = agent.groups.as_slice();
    devices(groups);
    moment(agent.since);
}

/// Of a call.
pub fn call_is_good(call: &CallRecord)
    requires { IsSerial call.now.call }
    ensures { IsGoodCall call.now }
{
    call.caller.number();
    call.called.number();
    moment(call.since);
}

/// Of a connection.
pub fn connection_is_good(connection: &ConnectionRecord)
    requires call { IsSerial connection.now.call }
    requires place { IfSome connection.now.place IsStamp }
    ensures { IsGoodConnection connection.now }
{
    connection.device.number();
    device_or_none(connection.group);
    moment_or_none(connection.queued);
    moment_or_none(connection.offered);
}

/// Of a monitor.
pub fn monitor_is_good(monitor: &MonitorRecord)
    requires { IsSerial monitor.now.monitor }
    ensures { IsGoodMonitor monitor.now }
{
    monitor.device.number();
}

/// Whether an event's columns are those of a report of its kind.
pub fn is_formed(event: &Event) -> bool
    ensures { result ≡ is_formed (columns_of event.now.report) }
{
    shape::is_formed(&event.report.columns())
}

/// Of an event.
pub fn event_is_good(event: &Event)
    requires number { IsStamp event.now.number }
    requires report { IsReported event.now.report }
    ensures { IsGoodEvent event.now }
{
    moment(event.moment);
    let columns = event.report.columns();
    device_or_none(columns.device);
    agent_or_none(columns.agent);
    device_or_none(columns.group);
    device_or_none(columns.to);
    moment_or_none(columns.waited);
}

/// Of a kept record.
pub fn kept_is_good(kept: &Kept)
    requires stamp { IsStamp kept.now.stamp }
    requires status { IsStatus kept.now.status }
    ensures { IsGoodKept kept.now }
{
    reads_back(&kept.request);
    moment(kept.moment);
    kept.body.as_str().as_bytes();
}
