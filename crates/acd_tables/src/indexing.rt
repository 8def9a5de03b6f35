//! Changes of one record that keep the sets of what is: who is at a station, the calls at a device, and what tick may
//! end. What begins is indexed before the change, since that may find no memory, and what has ended is removed after
//! it.

ghost use Rattle.std.specs.Prelude.{◌≡◌, ℕ, true, not, ◌&&◌, is_some, Some, OnOk, OnErr};
ghost use Rattle.acd_terms.specs.Lists.{IsAscending};
ghost use Rattle.acd_model.specs.Rules.Plan.{connection_order};
ghost use Rattle.acd_model.specs.Scans.{agent_of, connection_of, has};
ghost use Rattle.acd_model.specs.Writes.{with_agent, with_connection};
ghost use Rattle.acd_tables.specs.IndexedRows.{agent_seated, agent_station, rings, works, Seats, Lines, Ringing, Working};
ghost use Rattle.acd_tables.specs.Swaps.{IsFreeFor, Sits, GetsUp};

use crate::lines::{list, unlist};
use crate::records::Records;
use crate::sets::{insert_if, remove_if};
use crate::uses::is_ringing;
use acd_terms::{AgentId, AgentRecord, ConnectionRecord, DeviceId};
use std::alloc::AllocError;
use std::collections::{BTreeSet, HashMap};

fn agent_station(agent: &Option<AgentRecord>) -> Option<DeviceId>
    ensures { result ≡ agent_station agent.now }
{
    match agent {
        None => None,
        Some(agent) => agent.station,
    }
}

fn works(agent: &Option<AgentRecord>) -> bool
    ensures { result ≡ works agent.now }
{
    match agent {
        None => false,
        Some(agent) => agent.state.is_working_after_call(),
    }
}

/// The connection that may be there rings.
pub(crate) fn rings(connection: &Option<ConnectionRecord>) -> bool
    ensures { result ≡ rings connection.now }
{
    match connection {
        None => false,
        Some(c) => is_ringing(c),
    }
}

// It was, and is no longer.
fn ends(was: bool, is: bool) -> bool
    ensures { result ≡ (was && not is) }
{
    was && !is
}

// No other agent is at the station of this one.
fn is_free_for(seats: &HashMap<DeviceId, AgentId>, item: &AgentRecord) -> bool
    ensures { result ≡ true → IsFreeFor seats.now item.now }
{
    match item.station {
        None => true,
        Some(station) => match seats.get(&station) {
            None => true,
            Some(agent) => *agent == item.agent,
        },
    }
}

// The agent takes the station, if it is at one.
fn take_seat(
    seats: &mut HashMap<DeviceId, AgentId>,
    station: Option<DeviceId>,
    agent: AgentId,
) -> Result<(), AllocError>
    ensures ok { OnOk result (Sits seats.old seats.new station agent) }
    ensures err { OnErr result ((d : ℕ) → agent_seated seats.new d ≡ agent_seated seats.old d) }
{
    if let Some(station) = station {
        seats.insert(station, agent)?;
    }
    Ok(())
}

// Nobody is at the first station any more, but where it is the second.
fn leave_seat(
    seats: &mut HashMap<DeviceId, AgentId>,
    one: &Option<DeviceId>,
    other: &Option<DeviceId>,
)
    ensures { GetsUp seats.old seats.new one.now other.now }
{
    if *one == *other {
        return;
    }
    if let Some(station) = one {
        seats.remove(station);
    }
}

// The agent, who is at the first station, takes the new one too. One that another agent has is refused as if there were
// no memory.
fn sit(
    seats: &mut HashMap<DeviceId, AgentId>,
    from: &Option<DeviceId>,
    item: &AgentRecord,
) -> Result<(), AllocError>
    requires { (d : ℕ) → has from.now d ≡ true → agent_seated seats.old d ≡ Some item.now.agent }
    ensures ok { OnOk result (Sits seats.old seats.new item.now.station item.now.agent) }
    ensures free { OnOk result (IsFreeFor seats.old item.now) }
    ensures err { OnErr result ((d : ℕ) → agent_seated seats.new d ≡ agent_seated seats.old d) }
{
    if *from == item.station {
        return Ok(());
    }
    if !is_free_for(seats, item) {
        return Err(AllocError);
    }
    take_seat(seats, item.station, item.agent)
}

// Puts the agent, and indexes whether it is in after-call work.
fn put_working(
    records: &mut Records,
    working: &mut BTreeSet<AgentId>,
    old: &Option<AgentRecord>,
    item: &AgentRecord,
) -> Result<(), AllocError>
    requires index { Working records.old working.old }
    requires found { old.now ≡ agent_of records.old item.now.agent }
    ensures index { Working records.new working.new }
    ensures ok { OnOk result (records.new ≡ with_agent records.old item.now) }
    ensures err { OnErr result (records.new ≡ records.old) }
{
    let was = works(old);
    let is = item.state.is_working_after_call();
    insert_if(working, item.agent, is)?;
    match records.put_agent(*item) {
        Ok(()) => {
            remove_if(working, item.agent, ends(was, is));
            Ok(())
        }
        Err(error) => {
            remove_if(working, item.agent, ends(is, was));
            Err(error)
        }
    }
}

/// Puts the agent, indexes whether it is in after-call work, and gives it its station. One that another agent has is
/// refused as if there were no memory.
pub(crate) fn put_seated(
    records: &mut Records,
    seats: &mut HashMap<DeviceId, AgentId>,
    working: &mut BTreeSet<AgentId>,
    old: &Option<AgentRecord>,
    item: &AgentRecord,
) -> Result<(), AllocError>
    requires seated { Seats records.old seats.old }
    requires index { Working records.old working.old }
    requires found { old.now ≡ agent_of records.old item.now.agent }
    ensures seated { Seats records.new seats.new }
    ensures index { Working records.new working.new }
    ensures ok { OnOk result (records.new ≡ with_agent records.old item.now) }
    ensures err { OnErr result (records.new ≡ records.old) }
{
    let from = agent_station(old);
    sit(seats, &from, item)?;
    match put_working(records, working, old, item) {
        Ok(()) => {
            leave_seat(seats, &from, &item.station);
            Ok(())
        }
        Err(error) => {
            leave_seat(seats, &item.station, &from);
            Err(error)
        }
    }
}

// Puts the connection, and indexes whether it rings.
fn put_ringing(
    records: &mut Records,
    ringing: &mut BTreeSet<(u64, DeviceId)>,
    old: &Option<ConnectionRecord>,
    item: &ConnectionRecord,
) -> Result<(), AllocError>
    requires ascending { IsAscending connection_order records.old.connections }
    requires index { Ringing records.old ringing.old }
    requires found { old.now ≡ connection_of records.old item.now.call item.now.device }
    ensures index { Ringing records.new ringing.new }
    ensures ok { OnOk result (records.new ≡ with_connection records.old item.now) }
    ensures err { OnErr result (records.new ≡ records.old) }
{
    let (call, device) = (item.call, item.device);
    let was = rings(old);
    let is = is_ringing(item);
    insert_if(ringing, (call, device), is)?;
    match records.put_connection(*item) {
        Ok(()) => {
            remove_if(ringing, (call, device), ends(was, is));
            Ok(())
        }
        Err(error) => {
            remove_if(ringing, (call, device), ends(is, was));
            Err(error)
        }
    }
}

/// Puts the connection, indexes whether it rings, and lists its call at the device.
pub(crate) fn put_listed(
    records: &mut Records,
    lines: &mut BTreeSet<(u64, u64)>,
    ringing: &mut BTreeSet<(u64, DeviceId)>,
    old: &Option<ConnectionRecord>,
    item: &ConnectionRecord,
) -> Result<(), AllocError>
    requires ascending { IsAscending connection_order records.old.connections }
    requires listed { Lines records.old lines.old }
    requires index { Ringing records.old ringing.old }
    requires found { old.now ≡ connection_of records.old item.now.call item.now.device }
    ensures listed { Lines records.new lines.new }
    ensures index { Ringing records.new ringing.new }
    ensures ok { OnOk result (records.new ≡ with_connection records.old item.now) }
    ensures err { OnErr result (records.new ≡ records.old) }
{
    let (call, device) = (item.call, item.device);
    let new = old.is_none();
    list(lines, device, call, new)?;
    match put_ringing(records, ringing, old, item) {
        Ok(()) => Ok(()),
        Err(error) => {
            unlist(lines, device, call, new);
            Err(error)
        }
    }
}
