//! The rules call, connection, parties and live.

ghost use Rattle.std.specs.Prelude.{◌≡◌, ◌&&◌, ◌||◌, ◌==◌, length, filter};
ghost use Rattle.acd_terms.specs.Lists.{count};
ghost use Rattle.acd_model.specs.Watcher.{is_caller};
ghost use Rattle.acd_model.specs.Rules.Calls.{keeps_call, is_bare, is_placed, has_members, is_group_or_none, may_stand, keeps_connection, is_open, parties_of, initiated_of, initiated_at, open_of, is_being_made, has_two_parties, keeps_parties, live_at, alerting_at, hold_at, keeps_live, has_one_live};

use crate::lookups::Lookups;
use acd_terms::{CallRecord, ConnectionRecord, ConnectionState, DeviceId};

/// A call's called device is planned and not its caller, who is a station or not planned; its
/// identifier is not above the last.
#[tactic(auto, unfolding(acd_model::specs::Rules::Calls::keeps_call))]
pub fn keeps_call(lookups: &Lookups) -> bool
    ensures { result ≡ keeps_call lookups.now.rows.now }
{
    lookups.rows.calls.iter().all(|c| {
        lookups.is_planned(c.called)
            && c.called != c.caller
            && !lookups.is_group(c.caller)
            && c.call <= lookups.rows.last_call
    })
}

// No place, queued moment and offer.
fn is_bare(connection: &ConnectionRecord) -> bool
    ensures { result ≡ is_bare connection.now }
{
    connection.place.is_none() && connection.queued.is_none() && connection.offered.is_none()
}

fn is_placed(connection: &ConnectionRecord) -> bool
    ensures { result ≡ is_placed connection.now }
{
    connection.place.is_some() && connection.queued.is_some()
}

// The connection has the columns of its state and no other.
fn has_members(connection: &ConnectionRecord) -> bool
    ensures { result ≡ has_members connection.now.state connection.now }
{
    match connection.state {
        ConnectionState::Queued => {
            connection.group == Some(connection.device)
                && is_placed(connection)
                && connection.offered.is_none()
        }
        ConnectionState::Alerting if connection.group.is_some() => {
            is_placed(connection) && connection.offered.is_some()
        }
        ConnectionState::Alerting | ConnectionState::Connected | ConnectionState::Hold => {
            is_bare(connection)
        }
        ConnectionState::Initiated | ConnectionState::Fail => {
            connection.group.is_none() && is_bare(connection)
        }
    }
}

fn is_group_or_none(lookups: &Lookups, group: Option<DeviceId>) -> bool
    ensures { result ≡ is_group_or_none lookups.now.rows.now group }
{
    match group {
        None => true,
        Some(g) => lookups.is_group(g),
    }
}

// The device may have a connection in the state. That of an external caller was never distributed.
fn may_stand(lookups: &Lookups, connection: &ConnectionRecord) -> bool
    ensures { result ≡ may_stand lookups.now.rows.now connection.now.state connection.now }
{
    let device = connection.device;
    match connection.state {
        ConnectionState::Queued => lookups.is_group(device),
        ConnectionState::Connected => {
            lookups.is_station(device)
                || (!lookups.is_planned(device) && connection.group.is_none())
        }
        _ => lookups.is_station(device),
    }
}

fn is_caller(call: Option<CallRecord>, device: DeviceId) -> bool
    ensures { result ≡ is_caller call device }
{
    call.is_some_and(|c| c.caller == device)
}

/// A connection is of a live call, at its caller or at a planned device, with its columns, in a state that may be
/// there.
#[tactic(auto, unfolding(acd_model::specs::Rules::Calls::keeps_connection))]
pub fn keeps_connection(lookups: &Lookups) -> bool
    ensures { result ≡ keeps_connection lookups.now.rows.now }
{
    lookups.rows.connections.iter().all(|x| {
        let call = lookups.call(x.call);
        call.is_some()
            && (is_caller(call, x.device) || lookups.is_planned(x.device))
            && has_members(x)
            && is_group_or_none(lookups, x.group)
            && may_stand(lookups, x)
    })
}

// Alerting, queued or fail.
fn is_open(state: ConnectionState) -> bool
    ensures { result ≡ is_open state }
{
    state.is_alerting() || state.is_queued() || state.is_fail()
}

fn parties_among(connections: &[ConnectionRecord], call: u64) -> usize
    ensures { result ≡ length (filter (parties_of call) connections.now) }
{
    connections.iter().filter(|x| x.call == call).count()
}

fn parties_of(lookups: &Lookups, call: u64) -> usize
    ensures { result ≡ count (parties_of call) lookups.now.rows.now.connections }
{
    parties_among(lookups.of_call(call), call)
}

fn initiated_among(connections: &[ConnectionRecord], call: u64) -> usize
    ensures { result ≡ length (filter (initiated_of call) connections.now) }
{
    connections
        .iter()
        .filter(|x| x.state.is_initiated() && x.call == call)
        .count()
}

fn initiated_of(lookups: &Lookups, call: u64) -> usize
    ensures { result ≡ count (initiated_of call) lookups.now.rows.now.connections }
{
    initiated_among(lookups.of_call(call), call)
}

fn initiated_at_among(connections: &[ConnectionRecord], call: u64, device: DeviceId) -> usize
    ensures { result ≡ length (filter (initiated_at call device) connections.now) }
{
    connections
        .iter()
        .filter(|x| x.state.is_initiated() && x.call == call && x.device == device)
        .count()
}

fn initiated_at(lookups: &Lookups, call: u64, device: DeviceId) -> usize
    ensures { result ≡ count (initiated_at call device) lookups.now.rows.now.connections }
{
    initiated_at_among(lookups.of_call(call), call, device)
}

fn open_among(connections: &[ConnectionRecord], call: u64) -> usize
    ensures { result ≡ length (filter (open_of call) connections.now) }
{
    connections
        .iter()
        .filter(|x| is_open(x.state) && x.call == call)
        .count()
}

fn open_of(lookups: &Lookups, call: u64) -> usize
    ensures { result ≡ count (open_of call) lookups.now.rows.now.connections }
{
    open_among(lookups.of_call(call), call)
}

// One connection, initiated at the caller.
fn is_being_made(lookups: &Lookups, call: &CallRecord) -> bool
    ensures { result ≡ is_being_made lookups.now.rows.now call.now }
{
    parties_of(lookups, call.call) == 1 && initiated_at(lookups, call.call, call.caller) == 1
}

// Two connections, none initiated, and one at most alerting, queued or fail.
fn has_two_parties(lookups: &Lookups, call: &CallRecord) -> bool
    ensures { result ≡ has_two_parties lookups.now.rows.now call.now }
{
    parties_of(lookups, call.call) == 2
        && initiated_of(lookups, call.call) == 0
        && open_of(lookups, call.call) <= 1
}

/// A call has one connection, initiated at its caller, or two, none initiated and at most one
/// alerting, queued or fail.
#[tactic(auto, unfolding(acd_model::specs::Rules::Calls::keeps_parties))]
pub fn keeps_parties(lookups: &Lookups) -> bool
    ensures { result ≡ keeps_parties lookups.now.rows.now }
{
    lookups.rows.calls.iter().all(|c| is_being_made(lookups, c) || has_two_parties(lookups, c))
}

fn live_among(connections: &[ConnectionRecord], device: DeviceId) -> usize
    ensures { result ≡ length (filter (live_at device) connections.now) }
{
    connections
        .iter()
        .filter(|x| x.state.is_live() && x.device == device)
        .count()
}

fn live_at(lookups: &Lookups, device: DeviceId) -> usize
    ensures { result ≡ count (live_at device) lookups.now.rows.now.connections }
{
    live_among(lookups.at_device(device), device)
}

fn alerting_among(connections: &[ConnectionRecord], device: DeviceId) -> usize
    ensures { result ≡ length (filter (alerting_at device) connections.now) }
{
    connections
        .iter()
        .filter(|x| x.state.is_alerting() && x.device == device)
        .count()
}

fn alerting_at(lookups: &Lookups, device: DeviceId) -> usize
    ensures { result ≡ count (alerting_at device) lookups.now.rows.now.connections }
{
    alerting_among(lookups.at_device(device), device)
}

fn held_among(connections: &[ConnectionRecord], device: DeviceId) -> usize
    ensures { result ≡ length (filter (hold_at device) connections.now) }
{
    connections
        .iter()
        .filter(|x| x.state.is_hold() && x.device == device)
        .count()
}

fn hold_at(lookups: &Lookups, device: DeviceId) -> usize
    ensures { result ≡ count (hold_at device) lookups.now.rows.now.connections }
{
    held_among(lookups.at_device(device), device)
}

// At most one live connection at the station, and none on hold beside an alerting one.
fn has_one_live(lookups: &Lookups, station: DeviceId) -> bool
    ensures { result ≡ has_one_live lookups.now.rows.now station }
{
    live_at(lookups, station) <= 1
        && (alerting_at(lookups, station) == 0 || hold_at(lookups, station) == 0)
}

/// A station has at most one live connection, and none on hold beside an alerting one.
#[tactic(auto, unfolding(acd_model::specs::Rules::Calls::keeps_live))]
pub fn keeps_live(lookups: &Lookups) -> bool
    ensures { result ≡ keeps_live lookups.now.rows.now }
{
    lookups
        .rows
        .stations
        .iter()
        .all(|t| has_one_live(lookups, t.device))
}
