//! The moves of calls and connections.

ghost use Rattle.std.specs.Prelude.{◌≡◌};
ghost use Rattle.acd_model.specs.CallMoves.{unqueued, queueing, begin, connect_caller, initiate, originate, destination_of, arriving, arrival, arrive, waited_by, answer, hold, retrieve, offer, go_back, divert, transfer, clear, end_call};

use acd_model::{Change, Destination, Move, reported, silent};
use acd_tables::Tables;
use acd_terms::{
    CallRecord, Cause, ConnectionRecord, ConnectionState, DeviceId, Report, Turn, Waited,
};

fn unqueued(call: u64, device: DeviceId, state: ConnectionState) -> ConnectionRecord
    ensures { result ≡ unqueued call device state }
{
    ConnectionRecord {
        call,
        device,
        state,
        group: None,
        place: None,
        queued: None,
        offered: None,
    }
}

fn queueing(call: u64, group: DeviceId, place: Option<u64>, queued: Option<u32>) -> ConnectionRecord
    ensures { result ≡ queueing call group place queued }
{
    ConnectionRecord {
        call,
        device: group,
        state: ConnectionState::Queued,
        group: Some(group),
        place,
        queued,
        offered: None,
    }
}

/// A call begins.
pub fn begin(call: CallRecord) -> Move
    ensures { result ≡ begin call }
{
    silent(Change::PutCall(call))
}

/// The caller's side of a call from outside the plan.
pub fn connect_caller(call: u64, caller: DeviceId) -> Move
    ensures { result ≡ connect_caller call caller }
{
    silent(Change::PutConnection(unqueued(call, caller, ConnectionState::Connected)))
}

/// A station begins a call.
pub fn initiate(call: u64, station: DeviceId) -> Move
    ensures { result ≡ initiate call station }
{
    reported(
        Change::PutConnection(unqueued(call, station, ConnectionState::Initiated)),
        Report::ServiceInitiated { call, station },
    )
}

/// The station that began the call goes off hook.
pub fn originate(connection: &ConnectionRecord, called: DeviceId) -> Move
    ensures { result ≡ originate connection.now called }
{
    let connected = ConnectionRecord {
        state: ConnectionState::Connected,
        ..*connection
    };
    reported(
        Change::PutConnection(connected),
        Report::Originated {
            call: connection.call,
            station: connection.device,
            to: called,
        },
    )
}

fn destination_of(tables: &Tables, to: DeviceId) -> Destination
    ensures { result ≡ destination_of tables.now to }
{
    if tables.is_group(to) {
        Destination::Queue
    } else if tables.is_idle(to) {
        Destination::Idle
    } else {
        Destination::Busy
    }
}

fn arriving(destination: Destination, at: Turn, call: u64, to: DeviceId) -> ConnectionRecord
    ensures { result ≡ arriving destination at call to }
{
    match destination {
        Destination::Queue => queueing(call, to, Some(at.stamp), Some(at.moment)),
        Destination::Idle => unqueued(call, to, ConnectionState::Alerting),
        Destination::Busy => unqueued(call, to, ConnectionState::Fail),
    }
}

fn arrival(destination: Destination, call: u64, to: DeviceId, cause: Cause) -> Report
    ensures { result ≡ arrival destination call to cause }
{
    match destination {
        Destination::Queue => Report::Queued {
            call,
            group: to,
            cause,
        },
        Destination::Idle => Report::Delivered {
            call,
            station: to,
            cause,
            group: None,
        },
        Destination::Busy => Report::Failed { call, station: to },
    }
}

/// The call comes to a destination: it enters a queue, alerts, or fails.
#[tactic(auto, unfolding(acd_model::specs::CallMoves::arrive))]
pub fn arrive(tables: &Tables, at: Turn, call: u64, to: DeviceId, cause: Cause) -> Move
    ensures { result ≡ arrive tables.now at call to cause }
{
    let destination = destination_of(tables, to);
    reported(
        Change::PutConnection(arriving(destination, at, call, to)),
        arrival(destination, call, to, cause),
    )
}

fn waited_by(moment: u32, queued: Option<u32>, group: Option<DeviceId>) -> Option<Waited>
    ensures { result ≡ waited_by moment queued group }
{
    match group {
        None => None,
        Some(group) => Some(Waited {
            group,
            seconds: moment.saturating_sub(queued.unwrap_or(0)),
        }),
    }
}

/// The connection is answered.
pub fn answer(moment: u32, connection: &ConnectionRecord) -> Move
    ensures { result ≡ answer moment connection.now }
{
    let talking = ConnectionRecord {
        state: ConnectionState::Connected,
        place: None,
        queued: None,
        offered: None,
        ..*connection
    };
    reported(
        Change::PutConnection(talking),
        Report::Established {
            call: connection.call,
            station: connection.device,
            waited: waited_by(moment, connection.queued, connection.group),
        },
    )
}

/// The connection is held.
pub fn hold(connection: &ConnectionRecord) -> Move
    ensures { result ≡ hold connection.now }
{
    let held = ConnectionRecord {
        state: ConnectionState::Hold,
        ..*connection
    };
    reported(
        Change::PutConnection(held),
        Report::Held {
            call: connection.call,
            station: connection.device,
        },
    )
}

/// The held connection is retrieved.
pub fn retrieve(connection: &ConnectionRecord) -> Move
    ensures { result ≡ retrieve connection.now }
{
    let retrieved = ConnectionRecord {
        state: ConnectionState::Connected,
        ..*connection
    };
    reported(
        Change::PutConnection(retrieved),
        Report::Retrieved {
            call: connection.call,
            station: connection.device,
        },
    )
}

/// A queued call is offered at a station.
pub fn offer(moment: u32, connection: &ConnectionRecord, station: DeviceId) -> Move
    ensures { result ≡ offer moment connection.now station }
{
    let ringing = ConnectionRecord {
        device: station,
        state: ConnectionState::Alerting,
        offered: Some(moment),
        ..*connection
    };
    reported(
        Change::PutConnection(ringing),
        Report::Delivered {
            call: connection.call,
            station,
            cause: Cause::Distributed,
            group: connection.group,
        },
    )
}

/// An offered call returns to its group, at its old place.
pub fn go_back(connection: &ConnectionRecord, group: DeviceId) -> Move
    ensures { result ≡ go_back connection.now group }
{
    reported(
        Change::PutConnection(queueing(
            connection.call,
            group,
            connection.place,
            connection.queued,
        )),
        Report::Queued {
            call: connection.call,
            group,
            cause: Cause::NoAnswer,
        },
    )
}

/// The connection ends, and its call is sent elsewhere.
pub fn divert(connection: &ConnectionRecord, to: DeviceId, cause: Cause) -> Move
    ensures { result ≡ divert connection.now to cause }
{
    reported(
        Change::RemoveConnection(connection.call, connection.device),
        Report::Diverted {
            call: connection.call,
            device: connection.device,
            to,
            cause,
            group: connection.group,
        },
    )
}

/// The connection ends, and the other party is transferred.
pub fn transfer(connection: &ConnectionRecord, to: DeviceId) -> Move
    ensures { result ≡ transfer connection.now to }
{
    reported(
        Change::RemoveConnection(connection.call, connection.device),
        Report::Transferred {
            call: connection.call,
            station: connection.device,
            to,
        },
    )
}

/// The connection ends.
pub fn clear(connection: &ConnectionRecord) -> Move
    ensures { result ≡ clear connection.now }
{
    reported(
        Change::RemoveConnection(connection.call, connection.device),
        Report::ConnectionCleared {
            call: connection.call,
            device: connection.device,
        },
    )
}

/// The call ends.
pub fn end_call(call: u64, group: Option<DeviceId>) -> Move
    ensures { result ≡ end_call call group }
{
    reported(
        Change::RemoveCall(call),
        Report::CallCleared { call, group },
    )
}
