//! Agents, calls, devices and queues as JSON.

ghost use Rattle.std.specs.Prelude.{◌≡◌, IfOk, string_bytes};
ghost use Rattle.acd_codec.specs.Tokens.{AddsPart, AddsParts};
ghost use Rattle.acd_codec.specs.ReadTexts.{connection_state_name, in_full, distributed_from, agent_parts, agent_text, party_parts, party_data, call_parts, call_text, group_parts_first, group_parts_last, group_parts, group_text, line_parts, station_parts, station_text, device_text, waiting_parts, queue_parts, queue_text, quoted, above_0, parties_part};

use crate::writing::{
    Form, begun, ended, put_agent, put_device, put_groups, put_list, put_number, put_number_if,
    put_seconds, put_text, put_text_if, text_of,
};
use acd_terms::{
    AgentId, AgentRecord, CallRecord, ConnectionRecord, ConnectionState, DeviceId, GroupRecord,
    Listed, Pending, Priority,
};
use json::Writer;
use std::alloc::{AllocError, Global};

// An agent, a group or a call with its connections fits, and so do most stations and queues.
const ROOM: usize = 384;

/// A station, with all that its text contains.
#[derive(Debug, Drop, PartialEq, Eq)]
pub struct PlannedStation {
    pub device: DeviceId,
    /// Who is logged on there.
    pub agent: Option<AgentId>,
    /// The connections there, in the order in which they are to be written.
    pub connections: Listed<ConnectionRecord>,
}

/// A planned device, with all that its text contains.
#[derive(Debug, Drop, PartialEq, Eq)]
pub enum PlannedDevice {
    Group(GroupRecord),
    Station(PlannedStation),
}

/// How much of a record is written.
#[derive(Clone, Copy)]
pub(crate) enum Extent {
    /// As in the read of the record alone.
    Brief,
    /// As in a snapshot.
    All,
}

// A number that a snapshot contains, and the read of a single record doesn't.
fn in_full(extent: Extent, number: Option<u64>) -> Option<u64>
    ensures { result ≡ in_full extent number }
{
    match extent {
        Extent::Brief => None,
        Extent::All => number,
    }
}

fn state_name(state: ConnectionState) -> &'static str
    ensures { result.now ≡ connection_state_name state }
{
    match state {
        ConnectionState::Initiated => "initiated",
        ConnectionState::Alerting => "alerting",
        ConnectionState::Connected => "connected",
        ConnectionState::Hold => "hold",
        ConnectionState::Queued => "queued",
        ConnectionState::Fail => "fail",
    }
}

pub(crate) fn put_agent_members(
    out: &mut Writer,
    extent: Extent,
    agent: &AgentRecord,
) -> Result<(), AllocError>
    ensures { AddsParts result out.old out.new (agent_parts extent agent.now) }
{
    put_agent(out, "agent", Some(agent.agent))?;
    put_device(out, "device", agent.station)?;
    put_groups(out, &agent.groups)?;
    put_text(out, "name", agent.name.as_str())?;
    put_text_if(out, "pending", agent.pending.map(Pending::name))?;
    put_number(out, "since", u64::from(agent.since))?;
    put_number_if(out, "stamp", in_full(extent, Some(agent.stamp)))?;
    put_text(out, "state", agent.state.name())
}

/// The text of an agent.
pub fn agent_text(alloc: Global, agent: &AgentRecord) -> Result<String, AllocError>
    ensures { IfOk result (λ s. string_bytes s ≡ agent_text agent.now) }
{
    let mut out = begun(alloc, ROOM)?;
    put_agent_members(&mut out, Extent::Brief, agent)?;
    ended(out)
}

// The group of a distributed connection.
#[tactic(auto, unfolding(crate::specs::ReadTexts::distributed_from))]
fn distributed_from(connection: &ConnectionRecord) -> Option<DeviceId>
    ensures { result ≡ distributed_from connection.now }
{
    if connection.is_distributed() {
        connection.group
    } else {
        None
    }
}

fn put_party(
    out: &mut Writer,
    extent: Extent,
    connection: &ConnectionRecord,
) -> Result<(), AllocError>
    ensures { AddsParts result out.old out.new (party_parts extent connection.now) }
{
    put_device(out, "device", Some(connection.device))?;
    put_device(out, "group", distributed_from(connection))?;
    put_number_if(
        out,
        "offered",
        in_full(extent, connection.offered.map(u64::from)),
    )?;
    put_number_if(out, "place", in_full(extent, connection.place))?;
    put_number_if(
        out,
        "queued",
        in_full(extent, connection.queued.map(u64::from)),
    )?;
    put_text(out, "state", state_name(connection.state))
}

// Connections in the list of their call.
struct Parties;

impl Form for Parties {
    type Item = ConnectionRecord;

    ghost use Rattle.acd_codec.specs.ReadTexts.{party_data};
    ghost use Rattle.acd_codec.specs.declared.read_texts.Extent.TheVariants.{Brief};

    ghost data_of = { party_data Brief };

    fn write(out: &mut Writer, connection: &ConnectionRecord) -> Result<(), AllocError> {
        out.begin_object()?;
        put_party(out, Extent::Brief, connection)?;
        out.end_object()
    }
}

// The same in a snapshot.
struct FullParties;

impl Form for FullParties {
    type Item = ConnectionRecord;

    ghost use Rattle.acd_codec.specs.ReadTexts.{party_data};
    ghost use Rattle.acd_codec.specs.declared.read_texts.Extent.TheVariants.{All};

    ghost data_of = { party_data All };

    fn write(out: &mut Writer, connection: &ConnectionRecord) -> Result<(), AllocError> {
        out.begin_object()?;
        put_party(out, Extent::All, connection)?;
        out.end_object()
    }
}

fn put_parties(
    out: &mut Writer,
    extent: Extent,
    connections: &[ConnectionRecord],
) -> Result<(), AllocError>
    ensures { AddsPart result out.old out.new (parties_part extent connections.now) }
{
    match extent {
        Extent::Brief => put_list::<Parties>(out, "connections", connections),
        Extent::All => put_list::<FullParties>(out, "connections", connections),
    }
}

pub(crate) fn put_call_members(
    out: &mut Writer,
    extent: Extent,
    call: &CallRecord,
    connections: &[ConnectionRecord],
) -> Result<(), AllocError>
    ensures { AddsParts result out.old out.new (call_parts extent call.now connections.now) }
{
    put_number(out, "call", call.call)?;
    put_device(out, "called", Some(call.called))?;
    put_device(out, "caller", Some(call.caller))?;
    put_parties(out, extent, connections)?;
    put_number(out, "since", u64::from(call.since))
}

/// The text of a call with its connections, in the order in which they are given.
pub fn call_text(
    alloc: Global,
    call: &CallRecord,
    connections: &[ConnectionRecord],
) -> Result<String, AllocError>
    ensures { IfOk result (λ s. string_bytes s ≡ call_text call.now connections.now) }
{
    let mut out = begun(alloc, ROOM)?;
    put_call_members(&mut out, Extent::Brief, call, connections)?;
    ended(out)
}

// The priority of a group that was given one.
#[tactic(auto, unfolding(crate::specs::ReadTexts::above_0))]
fn above_0(priority: Priority) -> Option<u64>
    ensures { result ≡ above_0 priority }
{
    let number = u64::from(priority.number());
    if number > 0 { Some(number) } else { None }
}

// Writes the members of a group up to what it is.
fn put_group_first(out: &mut Writer, extent: Extent, group: &GroupRecord) -> Result<(), AllocError>
    ensures { AddsParts result out.old out.new (group_parts_first extent group.now) }
{
    put_number_if(
        out,
        "abandoned",
        in_full(extent, Some(group.figures.abandoned)),
    )?;
    put_number_if(
        out,
        "answered",
        in_full(extent, Some(group.figures.answered)),
    )?;
    put_device(out, "device", Some(group.device))?;
    put_number_if(out, "entered", in_full(extent, Some(group.figures.entered)))?;
    put_text(out, "kind", "group")
}

// Writes the members whose names follow.
fn put_group_last(out: &mut Writer, extent: Extent, group: &GroupRecord) -> Result<(), AllocError>
    ensures { AddsParts result out.old out.new (group_parts_last extent group.now) }
{
    put_number_if(out, "moved", in_full(extent, Some(group.figures.moved)))?;
    put_text(out, "name", group.name.as_str())?;
    put_number_if(out, "priority", above_0(group.priority))?;
    put_seconds(out, "ring", group.ring)?;
    put_number_if(out, "waited", in_full(extent, Some(group.figures.waited)))?;
    put_seconds(out, "wrap", group.wrap)
}

pub(crate) fn put_group_members(
    out: &mut Writer,
    extent: Extent,
    group: &GroupRecord,
) -> Result<(), AllocError>
    ensures { AddsParts result out.old out.new (group_parts extent group.now) }
{
    put_group_first(out, extent, group)?;
    put_group_last(out, extent, group)
}

// A device that is a group.
fn group_text(alloc: Global, group: &GroupRecord) -> Result<String, AllocError>
    ensures { IfOk result (λ s. string_bytes s ≡ group_text group.now) }
{
    let mut out = begun(alloc, ROOM)?;
    put_group_members(&mut out, Extent::Brief, group)?;
    ended(out)
}

fn put_line(out: &mut Writer, connection: &ConnectionRecord) -> Result<(), AllocError>
    ensures { AddsParts result out.old out.new (line_parts connection.now) }
{
    put_number(out, "call", connection.call)?;
    put_text(out, "state", state_name(connection.state))
}

// Connections in the list of their station.
struct Lines;

impl Form for Lines {
    type Item = ConnectionRecord;

    ghost use Rattle.acd_codec.specs.ReadTexts.{line_data};

    ghost data_of = { line_data };

    fn write(out: &mut Writer, connection: &ConnectionRecord) -> Result<(), AllocError> {
        out.begin_object()?;
        put_line(out, connection)?;
        out.end_object()
    }
}

pub(crate) fn put_station_members(
    out: &mut Writer,
    station: &PlannedStation,
) -> Result<(), AllocError>
    ensures { AddsParts result out.old out.new (station_parts station.now) }
{
    put_agent(out, "agent", station.agent)?;
    put_list::<Lines>(out, "connections", station.connections.as_slice())?;
    put_device(out, "device", Some(station.device))?;
    put_text(out, "kind", "station")
}

// A device that is a station.
fn station_text(alloc: Global, station: &PlannedStation) -> Result<String, AllocError>
    ensures { IfOk result (λ s. string_bytes s ≡ station_text station.now) }
{
    let mut out = begun(alloc, ROOM)?;
    put_station_members(&mut out, station)?;
    ended(out)
}

/// The text of a device.
#[tactic(auto, unfolding(crate::specs::ReadTexts::device_text))]
pub fn device_text(alloc: Global, device: &PlannedDevice) -> Result<String, AllocError>
    ensures { IfOk result (λ s. string_bytes s ≡ device_text device.now) }
{
    match device {
        PlannedDevice::Group(group) => group_text(alloc, group),
        PlannedDevice::Station(station) => station_text(alloc, station),
    }
}

fn put_waiting(out: &mut Writer, connection: &ConnectionRecord) -> Result<(), AllocError>
    ensures { AddsParts result out.old out.new (waiting_parts connection.now) }
{
    put_number(out, "call", connection.call)?;
    put_number_if(out, "place", connection.place)?;
    put_number_if(out, "since", connection.queued.map(u64::from))
}

// Connections in the list of those that wait.
struct Waiting;

impl Form for Waiting {
    type Item = ConnectionRecord;

    ghost use Rattle.acd_codec.specs.ReadTexts.{waiting_data};

    ghost data_of = { waiting_data };

    fn write(out: &mut Writer, connection: &ConnectionRecord) -> Result<(), AllocError> {
        out.begin_object()?;
        put_waiting(out, connection)?;
        out.end_object()
    }
}

// Agents by their digits.
struct Digits;

impl Form for Digits {
    type Item = AgentId;

    ghost use Rattle.acd_codec.specs.Parts.{digits_data};

    ghost data_of = { digits_data };

    fn write(out: &mut Writer, agent: &AgentId) -> Result<(), AllocError> {
        out.string(agent.text().as_str())
    }
}

fn put_queue_members(
    out: &mut Writer,
    group: DeviceId,
    waiting: &[ConnectionRecord],
    ready: &[AgentId],
) -> Result<(), AllocError>
    ensures { AddsParts result out.old out.new (queue_parts group waiting.now ready.now) }
{
    put_list::<Waiting>(out, "calls", waiting)?;
    put_device(out, "group", Some(group))?;
    put_list::<Digits>(out, "ready", ready)
}

/// The text of a group's queue: the connections that wait there, and the agents who may be offered a call. Both are in
/// the order in which they are given.
pub fn queue_text(
    alloc: Global,
    group: DeviceId,
    waiting: &[ConnectionRecord],
    ready: &[AgentId],
) -> Result<String, AllocError>
    ensures { IfOk result (λ s. string_bytes s ≡ queue_text group waiting.now ready.now) }
{
    let mut out = begun(alloc, ROOM)?;
    put_queue_members(&mut out, group, waiting, ready)?;
    ended(out)
}

/// A text that is no JSON, as JSON.
pub fn quoted(alloc: Global, text: &str) -> Result<String, AllocError>
    ensures { IfOk result (λ s. string_bytes s ≡ quoted text.now) }
{
    let mut out = Writer::new(Vec::with_capacity(alloc, text.len())?);
    out.string(text)?;
    text_of(out)
}
