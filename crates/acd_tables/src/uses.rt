//! How connections use a station, found by the calls that are listed there.

ghost use Rattle.std.specs.Prelude.{◌≡◌, ◌&&◌};
ghost use Rattle.std.specs.List.{list_any};
ghost use Rattle.acd_terms.specs.Lists.{IsAscending};
ghost use Rattle.acd_model.specs.Rules.Plan.{agent_order, connection_order};
ghost use Rattle.acd_model.specs.Scans.{agent_at};
ghost use Rattle.acd_tables.specs.Uses.{uses, is_in_use, call_uses};
ghost use Rattle.acd_tables.specs.IndexedRows.{is_ringing, Lines, Seats};

use crate::lines::lines_at;
use crate::records::Records;
use acd_terms::{AgentId, AgentRecord, ConnectionRecord, DeviceId};
use std::collections::btree_set::Range;
use std::collections::{BTreeSet, HashMap};

/// How a connection uses its station.
#[derive(Clone, Copy)]
pub enum Use {
    Live,
    /// Live or on hold.
    Occupying,
    /// Offered by distribution, until it ends.
    Distributed,
    /// Occupying or distributed: no call is offered there.
    Busying,
}

/// The connection uses its station so.
pub(crate) fn uses(kind: Use, c: &ConnectionRecord) -> bool
    ensures { result ≡ uses kind c.now }
{
    let distributed = c.group.is_some() && !c.state.is_queued();
    match kind {
        Use::Live => c.state.is_live(),
        Use::Occupying => c.state.is_occupying(),
        Use::Distributed => distributed,
        Use::Busying => c.state.is_occupying() || distributed,
    }
}

/// Distribution offered the connection, and it isn't answered.
pub(crate) fn is_ringing(c: &ConnectionRecord) -> bool
    ensures { result ≡ is_ringing c.now }
{
    c.state.is_alerting() && c.group.is_some() && c.offered.is_some()
}

// The connection of the call at the device, but for one of the call that is left out, uses it so.
fn call_uses(records: &Records, call: u64, device: DeviceId, but: Option<u64>, kind: Use) -> bool
    ensures { result ≡ call_uses records.now device but kind call }
{
    if but == Some(call) {
        return false;
    }
    match records.connection(call, device) {
        None => false,
        Some(c) => uses(kind, &c),
    }
}

fn any_call_uses(
    records: &Records,
    lines: Range<'_, (u64, u64)>,
    device: DeviceId,
    but: Option<u64>,
    kind: Use,
) -> bool
    ensures { result ≡ list_any (λ k. call_uses records.now device but kind k.1) lines.entry }
{
    for key in lines {
        if call_uses(records, key.1, device, but, kind) {
            return true;
        }
    }
    false
}

/// A connection at the device, but for one of the call that is left out, uses it so.
pub(crate) fn is_in_use(
    records: &Records,
    lines: &BTreeSet<(u64, u64)>,
    device: DeviceId,
    but: Option<u64>,
    kind: Use,
) -> bool
    requires ascending { IsAscending connection_order records.now.connections }
    requires listed { Lines records.now lines.now }
    ensures { result ≡ is_in_use records.now device but kind }
{
    any_call_uses(records, lines_at(lines, device), device, but, kind)
}

/// The agent logged on at the station.
pub(crate) fn agent_at(
    records: &Records,
    seats: &HashMap<DeviceId, AgentId>,
    station: DeviceId,
) -> Option<AgentRecord>
    requires ascending { IsAscending agent_order records.now.agents }
    requires listed { Seats records.now seats.now }
    ensures { result ≡ agent_at records.now station }
{
    match seats.get(&station) {
        None => None,
        Some(number) => records.agent(*number),
    }
}
