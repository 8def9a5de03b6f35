//! The numbers of the events at watched devices: which are lent, and when none are.

use crate::comparing::same;
use acd_book::MonitorIndex;
use acd_model::Change;
use acd_terms::{DeviceId, Event, MonitorRecord, Report};
use std::process::Abort;

fn devices(rt: &impl Abort) -> [DeviceId; 2] {
    let first = DeviceId::from_number(1201).expect(rt, "a device");
    let second = DeviceId::from_number(1202).expect(rt, "a device");
    [first, second]
}

fn held(number: u64, station: DeviceId) -> Event {
    Event {
        number,
        moment: 10,
        report: Report::Held { call: 1, station },
    }
}

fn monitor(monitor: u64, device: DeviceId, after_event: u64) -> MonitorRecord {
    MonitorRecord {
        monitor,
        device,
        after_event,
    }
}

// The numbers that the book lends of a device, above these.
fn expect(
    rt: &impl Abort,
    watched: &MonitorIndex,
    device: DeviceId,
    lent: &[(u64, usize, Option<&[u64]>)],
) {
    for (above, limit, wanted) in lent {
        let found = watched.numbers(device, *above, *limit);
        same(rt, &(*above, *limit, found), &(*above, *limit, *wanted));
    }
}

// Monitor 1 of a device, from the event 1 on, with four more events, of which one is at another device. The list stays
// until the last monitor of its device is stopped, and begins anew with the next.
#[test]
fn numbers_of_a_watched_device(rt: HostRuntime) {
    let [first, second] = devices(&rt);
    let mut watched = MonitorIndex::new(rt.alloc());
    watched.add(&held(1, first));
    expect(&rt, &watched, first, &[(0, 100, None), (1, 100, None)]);
    watched.change(&[Change::PutMonitor(monitor(1, first, 1))], 1);
    watched.add_all(&[
        held(2, first),
        held(3, second),
        held(4, first),
        held(5, first),
    ]);
    expect(
        &rt,
        &watched,
        first,
        &[
            (0, 100, None),
            (1, 100, Some(&[2, 4, 5])),
            (1, 2, Some(&[2, 4])),
            (2, 100, Some(&[4, 5])),
            (4, 1, Some(&[5])),
            (5, 100, Some(&[])),
            (1, 0, Some(&[])),
        ],
    );
    expect(&rt, &watched, second, &[(1, 100, None)]);
    watched.change(
        &[
            Change::PutMonitor(monitor(2, first, 5)),
            Change::RemoveMonitor(1),
        ],
        5,
    );
    watched.add(&held(6, first));
    expect(&rt, &watched, first, &[(1, 100, Some(&[2, 4, 5, 6]))]);
    watched.change(&[Change::RemoveMonitor(2)], 6);
    expect(&rt, &watched, first, &[(1, 100, None), (6, 100, None)]);
    watched.start(&monitor(3, first, 6), 6);
    watched.add(&held(7, first));
    expect(&rt, &watched, first, &[(5, 9, None), (6, 9, Some(&[7]))]);
}

#[test]
fn numbers_of_the_monitors_that_run(rt: HostRuntime) {
    let [first, second] = devices(&rt);
    let monitors = [monitor(1, first, 2), monitor(2, second, 9)];
    let mut watched = MonitorIndex::of_monitors(rt.alloc(), &monitors, 7);
    for number in 8..=11 {
        watched.add(&held(number, first));
        watched.add(&held(number, second));
    }
    expect(
        &rt,
        &watched,
        first,
        &[(6, 100, None), (7, 100, Some(&[8, 9, 10, 11]))],
    );
    expect(
        &rt,
        &watched,
        second,
        &[(8, 100, None), (9, 100, Some(&[10, 11]))],
    );
}
