//! The event reports of a book in memory.

ghost use Rattle.std.specs.Prelude.{◌≡◌, ◌+◌, ◌≤◌, ◌++◌, [], Some, true, drop, filter, length, take, vec_len, vec_capacity, OnOk};
ghost use Rattle.std.specs.List.{cons_option, filter_map};
ghost use Rattle.std.proofs.Props.{props};
ghost use Rattle.acd_book.specs.Content.{is_at, device_page};
ghost use Rattle.acd_book.specs.CallResults.{GivesList};
ghost use Rattle.acd_book.specs.Memory.{event_numbered, is_numbered, number_of_event};
ghost use Rattle.acd_book.specs.MonitorIndexes.{KeepsWatched, ListsEvents, listed_prop};

use crate::monitor_index::MonitorIndex;
use acd_model::Change;
use acd_terms::{DeviceId, Event, MonitorRecord};
use std::alloc::{AllocError, Global};

/// The events, whose numbers are 1, 2, 3 and so on, and which of them are at the devices that are watched.
#[derive(Drop)]
pub(crate) struct Log {
    pub(crate) events: Vec<Event>,
    pub(crate) watched: MonitorIndex,
    ghost numbered: { is_numbered number_of_event 0 events.items ≡ true },
    ghost listed: { ListsEvents events.items watched } by { Prim.hlevel (props, listed_prop) },
    ghost kept: { KeepsWatched watched } by { Prim.hlevel props },
}

impl Log {
    pub(crate) fn new(alloc: Global) -> Log
        ensures { result.events.items ≡ [] }
    {
        Log {
            events: Vec::new(alloc),
            watched: MonitorIndex::new(alloc),
        }
    }

    /// The events above a number.
    pub(crate) fn all_after(&self, number: u64) -> &[Event]
        ensures { result.now ≡ drop number self.now.events.items }
    {
        let place = (number as usize).min(self.events.len());
        &self.events[place..]
    }

    // The event of a number.
    fn event_at(&self, number: u64) -> Option<Event>
        ensures { result ≡ event_numbered self.now.events.items number }
    {
        let place = number.checked_sub(1)?;
        self.events.get(place as usize).copied()
    }

    // The events of these numbers.
    fn events_at(&self, alloc: Global, numbers: &[u64]) -> Result<Vec<Event>, AllocError>
        ensures { GivesList result (filter_map (event_numbered self.now.events.items) numbers.now) }
    {
        let mut found = Vec::with_capacity(alloc, numbers.len())?;
        for number in numbers {
            let event = self.event_at(*number);
            push_if(&mut found, &event)?;
        }
        Ok(found)
    }

    /// The first events at a device above a number.
    pub(crate) fn at_device(
        &self,
        alloc: Global,
        device: DeviceId,
        number: u64,
        limit: usize,
    ) -> Result<Vec<Event>, AllocError>
        ensures { GivesList result (device_page device number limit self.now.events.items) }
    {
        match self.watched.numbers(device, number, limit) {
            Some(numbers) => self.events_at(alloc, numbers),
            None => first_at(alloc, self.all_after(number), device, limit),
        }
    }

    /// The numbers of these go on.
    pub(crate) fn precedes(&self, events: &[Event]) -> bool
        ensures { result ≡ is_numbered number_of_event (length self.now.events.items) events.now }
    {
        let mut last = self.events.len() as u64;
        for event in events {
            if event.number.checked_sub(1) != Some(last) {
                return false;
            }
            last = event.number;
        }
        true
    }

    /// Takes room for so many more events.
    pub(crate) fn reserve(&mut self, events: usize) -> Result<(), AllocError>
        ensures same { self.new.events.items ≡ self.old.events.items }
        ensures room { OnOk result
            (vec_len self.new.events + events ≤ vec_capacity self.new.events) }
    {
        self.events.reserve(events)
    }

    /// Watches what changes begin to watch, from the next event on, and no longer what they cease to.
    pub(crate) fn watch(&mut self, changes: &[Change])
        ensures same { self.new.events ≡ self.old.events }
    {
        let last = self.events.len() as u64;
        self.watched.change(changes, last);
    }

    /// Watches the devices of these monitors from the next event on, and no others.
    pub(crate) fn watch_only(&mut self, alloc: Global, monitors: &[MonitorRecord])
        ensures same { self.new.events ≡ self.old.events }
    {
        let last = self.events.len() as u64;
        self.watched = MonitorIndex::of_monitors(alloc, monitors, last);
    }

    /// Adds events that go on, for which there is room.
    pub(crate) fn append(&mut self, events: &[Event])
        requires room { vec_len self.old.events + length events.now ≤ vec_capacity self.old.events }
        requires numbered { is_numbered number_of_event (length self.old.events.items) events.now
            ≡ true }
        ensures { self.new.events.items ≡ self.old.events.items ++ events.now }
    {
        let _ = self.events.extend_from_slice(events);
        self.watched.add_all(events);
    }
}

// Puts it at the end, if there is one.
fn push_if<T: Copy + Drop>(list: &mut Vec<T>, item: &Option<T>) -> Result<(), AllocError>
    ensures { OnOk result (list.new.items ≡ list.old.items ++ cons_option item.now []) }
{
    if let Some(item) = item {
        list.push(*item)?;
    }
    Ok(())
}

// The first of these at a device.
fn first_at(
    alloc: Global,
    events: &[Event],
    device: DeviceId,
    limit: usize,
) -> Result<Vec<Event>, AllocError>
    ensures { GivesList result (take limit (filter (is_at (Some device)) events.now)) }
{
    let mut found = Vec::new(alloc);
    for event in events {
        if found.len() == limit {
            return Ok(found);
        }
        if event.report.columns().device == Some(device) {
            found.push(*event)?;
        }
    }
    Ok(found)
}
