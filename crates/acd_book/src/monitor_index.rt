//! The numbers of the events at the devices that are watched, so that a page of a monitor reads the events of that
//! monitor alone.

ghost use Rattle.std.specs.Prelude.{◌≡◌, ◌-◌, ◌==◌, ℕ, ◌∷◌, [], List, None, Some, IfSome, option_map};
ghost use Rattle.acd_terms.specs.declared.event.Event.{Event};
ghost use Rattle.acd_model.specs.declared.moves.Change.TheVariants.{PutMonitor, RemoveMonitor};
ghost use Rattle.acd_book.specs.MonitorIndexes.{ArePageNumbers, ListsEvents, StillWatches, WatchesAfter, WatchesFrom, WatchesMore};
ghost use Rattle.acd_book.specs.MonitorIndexes.{CountsAt, IsMore, KeepsWatched, RecordsChanges, RecordsThese, StillKeeps, monitor_count, fewer, is_none_left, recorded_at};

use crate::numbers::Numbers;
use acd_model::Change;
use acd_terms::{DeviceId, Event, MonitorRecord};
use std::alloc::Global;
use std::collections::HashMap;

/// For each device with a running monitor the numbers of its events, from a number on.
///
/// It takes 8 bytes for each event at such a device, and frees a device's list with its last monitor. None of its calls
/// fails: a list that finds no memory is freed, and whoever asks for it has to look through the events. A monitor that
/// finds no memory isn't indexed.
#[derive(Drop)]
pub struct MonitorIndex {
    pub(crate) alloc: Global,
    pub(crate) lists: HashMap<DeviceId, Numbers>,
    /// The device of each monitor that is counted in a list.
    pub(crate) devices: HashMap<u64, DeviceId>,
}

impl MonitorIndex {
    /// Nothing is watched.
    pub fn new(alloc: Global) -> MonitorIndex
        ensures lists { (events : List Event) → ListsEvents events result }
        ensures kept { KeepsWatched result }
        ensures recorded { (monitor : ℕ) → recorded_at result monitor ≡ None }
    {
        MonitorIndex {
            alloc,
            lists: HashMap::new(alloc),
            devices: HashMap::new(alloc),
        }
    }

    /// Watches the devices of monitors that run from now on, where no event has a number above `last`.
    pub fn of_monitors(alloc: Global, monitors: &[MonitorRecord], last: u64) -> MonitorIndex
        ensures lists { WatchesAfter last result }
        ensures kept { KeepsWatched result }
        ensures recorded { RecordsThese monitors.now result }
    {
        let mut watched = MonitorIndex::new(alloc);
        for monitor in monitors {
            watched.start(monitor, last);
        }
        watched
    }

    /// Watches the device of a monitor that runs from now on, where no event has a number above `last`.
    pub fn start(&mut self, monitor: &MonitorRecord, last: u64)
        ensures lists { WatchesFrom last self.old self.new }
        ensures kept { StillKeeps self.old self.new }
        ensures recorded { RecordsChanges (PutMonitor monitor.now ∷ []) self.old self.new }
    {
        self.stop(monitor.monitor);
        if self.devices.insert(monitor.monitor, monitor.device).is_ok() {
            self.count(monitor.device, monitor.after_event.max(last));
        }
    }

    // One more monitor watches the device, whose list begins here where it has none.
    fn count(&mut self, device: DeviceId, above: u64)
        ensures lists { WatchesFrom above self.old self.new }
        ensures counts { CountsAt device IsMore self.old self.new }
    {
        if let Some(list) = self.lists.get_mut(&device) {
            list.monitors = list.monitors.saturating_add(1);
            return;
        }
        let _ = self.lists.insert(device, Numbers::new(self.alloc, above));
    }

    /// A monitor is stopped, and the list of its device is removed with the last one.
    pub fn stop(&mut self, monitor: u64)
        ensures lists { StillWatches self.old self.new }
        ensures kept { StillKeeps self.old self.new }
        ensures recorded { RecordsChanges (RemoveMonitor monitor ∷ []) self.old self.new }
    {
        if let Some(device) = self.devices.remove(&monitor) {
            self.discount(device);
        }
    }

    // One monitor less watches the device.
    fn discount(&mut self, device: DeviceId)
        ensures lists { StillWatches self.old self.new }
        ensures counts { CountsAt device (λ old new. new ≡ fewer old) self.old self.new }
    {
        if self.is_last(device) {
            self.lists.remove(&device);
        }
    }

    // Counts one monitor less at the device, and answers whether it was the last.
    fn is_last(&mut self, device: DeviceId) -> bool
        ensures lists { StillWatches self.old self.new }
        ensures counts { CountsAt device (λ old new. new ≡ option_map (λ n. n - 1) old)
            self.old self.new }
        ensures last { result ≡ is_none_left (monitor_count self.new device) }
    {
        match self.lists.get_mut(&device) {
            None => false,
            Some(list) => {
                list.monitors = list.monitors.saturating_sub(1);
                list.monitors == 0
            }
        }
    }

    // Starts or stops what a change starts or stops, where no event has a number above `last`.
    fn follow(&mut self, change: &Change, last: u64)
        ensures lists { WatchesFrom last self.old self.new }
        ensures kept { StillKeeps self.old self.new }
        ensures recorded { RecordsChanges (change.now ∷ []) self.old self.new }
    {
        match change {
            Change::PutMonitor(monitor) => self.start(monitor, last),
            Change::RemoveMonitor(monitor) => self.stop(*monitor),
            _ => {}
        }
    }

    /// Starts and stops what changes start and stop, where no event has a number above `last`.
    pub fn change(&mut self, changes: &[Change], last: u64)
        ensures lists { WatchesFrom last self.old self.new }
        ensures kept { StillKeeps self.old self.new }
        ensures recorded { RecordsChanges changes.now self.old self.new }
    {
        for change in changes {
            self.follow(change, last);
        }
    }

    /// Adds one event at the end.
    pub fn add(&mut self, event: &Event)
        ensures lists { WatchesMore (event.now ∷ []) self.old self.new }
        ensures kept { StillKeeps self.old self.new }
        ensures devices { self.new.devices ≡ self.old.devices }
    {
        let Some(device) = event.report.columns().device else {
            return;
        };
        let Some(list) = self.lists.get_mut(&device) else {
            return;
        };
        if list.add(event.number).is_err() {
            self.lists.remove(&device);
        }
    }

    /// Adds more events at the end.
    pub fn add_all(&mut self, more: &[Event])
        ensures lists { WatchesMore more.now self.old self.new }
        ensures kept { StillKeeps self.old self.new }
        ensures devices { self.new.devices ≡ self.old.devices }
    {
        if self.lists.is_empty() {
            return;
        }
        for event in more {
            self.add(event);
        }
    }

    /// The numbers of the first `limit` events at a device above a number, where it is known that no other is.
    pub fn numbers(&self, device: DeviceId, number: u64, limit: usize) -> Option<&[u64]>
        ensures { IfSome result (λ found. ArePageNumbers self.now device number limit found.now) }
    {
        let list = self.lists.get(&device)?;
        if number < list.above {
            return None;
        }
        Some(list.after(number, limit))
    }
}
