//! Rows and commits that no request makes: which of them the tables and a book in memory refuse.

use crate::comparing::same;
use crate::player::{executes, new_desk};
use acd_book::{Book, BookFault, Kept, MemoryBook, Text};
use acd_model::Change;
use acd_services::change;
use acd_tables::Tables;
use acd_terms::{
    AgentRecord, AgentState, Command, ConnectionRecord, ConnectionState, DeviceId, Event, Groups,
    Invoke, Listed, Report, Request, Requester, Rows,
};
use std::alloc::Global;
use std::process::Abort;

// Groups 05 and 100, stations 201 and 202, agents 7 and 8, and call 1 from 0301234, which agent 7 of 100 has answered at
// 201: ten requests and seven events.
fn answered() -> &'static [u8] {
    br#"0 {"requester":"plan","invoke":1,"service":"addGroup","device":"05","name":"Claims","ring":20,"wrap":30}
0 {"requester":"plan","invoke":2,"service":"addGroup","device":"100","name":"Billing","ring":20,"wrap":30}
0 {"requester":"plan","invoke":3,"service":"addStation","device":"201"}
0 {"requester":"plan","invoke":4,"service":"addStation","device":"202"}
0 {"requester":"plan","invoke":5,"service":"addAgent","agent":"7","name":"Ana"}
0 {"requester":"plan","invoke":6,"service":"addAgent","agent":"8","name":"Ana"}
10 {"requester":"pbx","invoke":1,"service":"arriveCall","caller":"0301234","called":"100"}
15 {"requester":"desk","invoke":1,"service":"setAgentState","agent":"7","requested":"loggedOn","device":"201","group":"100"}
18 {"requester":"desk","invoke":2,"service":"setAgentState","agent":"7","requested":"ready"}
25 {"requester":"desk","invoke":3,"service":"answerCall","call":1,"device":"201"}
"#
}

// A book that holds that.
fn answered_call(rt: &impl Abort, alloc: Global) -> MemoryBook {
    let mut desk = new_desk(rt, alloc);
    executes(rt, alloc, &mut desk, answered(), 10);
    desk.close()
}

fn rows_of<B: Book>(rt: &impl Abort, book: &mut B) -> Rows {
    book.rows().expect(rt, "memory")
}

fn device(rt: &impl Abort, digits: &str) -> DeviceId {
    DeviceId::read(digits.as_bytes()).expect(rt, "a device")
}

// The group 100 and another one.
fn two_groups(rt: &impl Abort, other: &str) -> Groups {
    let groups = Groups::one(device(rt, "100"));
    groups.with(device(rt, other)).expect(rt, "two groups")
}

// The items in the other order.
fn turned<T: Copy>(rt: &impl Abort, alloc: Global, items: &[T]) -> Listed<T> {
    let mut turned = items.to_vec(alloc).expect(rt, "memory");
    turned.reverse();
    Listed::new(turned)
}

// Agent 8 is ready at a station.
fn seated(rt: &impl Abort, rows: &Rows, station: &str, groups: Groups) -> Change {
    for agent in rows.agents.as_slice() {
        if agent.station.is_none() {
            return Change::PutAgent(AgentRecord {
                state: AgentState::Ready,
                station: Some(device(rt, station)),
                groups,
                ..*agent
            });
        }
    }
    panic!(rt; "no agent")
}

// Call 1 waits in a group.
fn waiting(group: DeviceId) -> Change {
    Change::PutConnection(ConnectionRecord {
        call: 1,
        device: group,
        state: ConnectionState::Queued,
        group: Some(group),
        place: Some(7),
        queued: Some(0),
        offered: None,
    })
}

// Refused are a second agent at a station, and a group that isn't planned, alone and after one that is; and stations out of
// order. All are refused as if there were no memory.
#[test]
fn what_the_tables_refuse(rt: HostRuntime) {
    let alloc = rt.alloc();
    let mut book = answered_call(&rt, alloc);
    let mut rows = rows_of(&rt, &mut book);
    let [billing, other] = [device(&rt, "100"), device(&rt, "110")];
    let mut tables = Tables::from_rows(alloc, &rows).expect(&rt, "memory");
    for (place, (one, is_made)) in [
        (seated(&rt, &rows, "201", Groups::one(billing)), false),
        (seated(&rt, &rows, "202", Groups::one(other)), false),
        (seated(&rt, &rows, "202", two_groups(&rt, "110")), false),
        (waiting(other), false),
        (seated(&rt, &rows, "202", Groups::one(billing)), true),
        (waiting(billing), true),
    ]
    .iter()
    .enumerate()
    {
        let made = change(&mut tables, one).is_ok();
        same(&rt, &(place, made), &(place, *is_made));
    }
    rows.stations = turned(&rt, alloc, rows.stations.as_slice());
    assert!(rt; Tables::from_rows(alloc, &rows).is_err());
}

// The record of a stamp, of a tick with an invoke number.
fn record(rt: &impl Abort, alloc: Global, stamp: u64, invoke: u64) -> Kept {
    Kept {
        stamp,
        moment: 25,
        request: Request {
            requester: Requester::read(b"office").expect(rt, "a requester"),
            invoke: Invoke::new(invoke).expect(rt, "an invoke number"),
            command: Command::Tick,
        },
        status: 200,
        body: Text::new(String::from_str(alloc, "{}").expect(rt, "memory")),
    }
}

// Commits an event and a record with these numbers.
fn commit<B: Book>(
    rt: &impl Abort,
    alloc: Global,
    book: &mut B,
    numbers: (u64, u64, u64),
) -> Result<(), BookFault> {
    let (number, stamp, invoke) = numbers;
    let report = Report::CallCleared {
        call: 1,
        group: None,
    };
    let event = Event {
        number,
        moment: 25,
        report,
    };
    book.commit_changes(&[], &[event], &record(rt, alloc, stamp, invoke))
}

// The last stamp, moment and event.
fn counters<B: Book>(rt: &impl Abort, book: &mut B) -> (u64, u32, u64) {
    let rows = rows_of(rt, book);
    (rows.last_stamp, rows.last_moment, rows.last_event)
}

// A number and a stamp that don't go on, a key that is kept, and rows out of order; and then one that goes on. A refused
// commit changes nothing.
fn expect_refused<B: Book>(rt: &impl Abort, alloc: Global, book: &mut B) {
    for (numbers, done, left) in [
        ((8, 11, 11), Ok(()), (11, 25, 8)),
        ((10, 12, 12), Err(BookFault::NoMemory), (11, 25, 8)),
        ((9, 13, 12), Err(BookFault::NoMemory), (11, 25, 8)),
        ((9, 12, 11), Err(BookFault::NoMemory), (11, 25, 8)),
    ] {
        let found = commit(rt, alloc, book, numbers);
        same(rt, &(numbers, found), &(numbers, done));
        same(rt, &counters(rt, book), &left);
    }
    let mut rows = rows_of(rt, book);
    rows.last_stamp = 12;
    rows.stations = turned(rt, alloc, rows.stations.as_slice());
    let found = book.commit(&rows, &[], &record(rt, alloc, 12, 12));
    same(rt, &found, &Err(BookFault::NoMemory));
    same(rt, &counters(rt, book), &(11, 25, 8));
    rows.stations = turned(rt, alloc, rows.stations.as_slice());
    let found = book.commit(&rows, &[], &record(rt, alloc, 12, 12));
    same(rt, &found, &Ok(()));
    same(rt, &counters(rt, book), &(12, 25, 8));
}

#[test]
fn commits_that_do_not_go_on(rt: HostRuntime) {
    let mut book = answered_call(&rt, rt.alloc());
    expect_refused(&rt, rt.alloc(), &mut book);
}
