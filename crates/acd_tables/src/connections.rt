//! The connections by call and device, and those of one call.

ghost use Rattle.std.specs.Prelude.{◌≡◌, ◌==◌, ◌<◌, ◌^◌, [], length, filter, find, OnOk, OnErr, IfOk};
ghost use Rattle.std.specs.List.{filter_map};
ghost use Rattle.acd_terms.specs.Lists.{find_by, first_two, put_by, remove_by};
ghost use Rattle.acd_model.specs.Rules.Plan.{connection_order};
ghost use Rattle.acd_model.specs.Scans.{at_connection};
ghost use Rattle.acd_tables.specs.Near.{start, end, of_key};
ghost use Rattle.acd_tables.specs.AtDevice.{is_other_of};

use crate::sets::{insert_if, remove_if};
use crate::table::Table;
use acd_terms::{ConnectionRecord, DeviceId, Listed, ascends};
use std::alloc::{AllocError, Global};
use std::collections::BTreeSet;
use std::collections::btree_set::Range;
use std::marker::Model;
use std::ops::Bound;

/// The connections by call and device, seen as a list in ascending call and device.
#[derive(Drop)]
pub struct Connections {
    records: Table<ConnectionRecord>,
    // Call and device of each.
    keys: BTreeSet<(u64, DeviceId)>,
}

impl Model for Connections {
    ghost use Rattle.std.specs.Prelude.{List};
    ghost use Rattle.acd_terms.specs.declared.record.ConnectionRecord.{ConnectionRecord as Connection};
    ghost use Rattle.acd_tables.specs.Near.{HasKeys};

    ghost Value = { List Connection };

    ghost view = { λ t. t.records };

    ghost invariant = { λ t. HasKeys t.records t.keys };
}

// After the device at the call before.
#[tactic(auto, unfolding(crate::specs::Near::start))]
fn start(call: u64, device: DeviceId) -> Bound<(u64, DeviceId)>
    ensures { result ≡ start call device }
{
    if call == 0 {
        Bound::Unbounded
    } else {
        Bound::Excluded((call - 1, device))
    }
}

// Before the device at the next call.
#[tactic(auto, unfolding(crate::specs::Near::end))]
fn end(call: u64, device: DeviceId) -> Bound<(u64, DeviceId)>
    ensures { result ≡ end call device }
{
    if call == u64::MAX {
        Bound::Unbounded
    } else {
        Bound::Excluded((call + 1, device))
    }
}

impl Connections {
    pub fn new(alloc: Global) -> Self
        ensures { result ≡ [] }
    {
        Connections {
            records: Table::new(alloc),
            keys: BTreeSet::new(alloc),
        }
    }

    /// These connections. Such as aren't in ascending call and device are refused as if there were no memory.
    pub fn from_slice(alloc: Global, connections: &[ConnectionRecord]) -> Result<Self, AllocError>
        ensures { IfOk result (λ t. t ≡ connections.now) }
    {
        if !ascends(connections) {
            return Err(AllocError);
        }
        let mut table = Connections::new(alloc);
        for connection in connections {
            table.put(*connection)?;
        }
        Ok(table)
    }

    pub fn len(&self) -> usize
        ensures value { result ≡ length self.now }
        ensures small { result < 2 ^ 63 }
    {
        self.records.len()
    }

    /// The connection of the call at the device.
    pub fn find(&self, call: u64, device: DeviceId) -> Option<ConnectionRecord>
        ensures { result ≡ find_by (at_connection call device) self.now }
    {
        self.records.find((call, device))
    }

    /// Puts the connection. One that finds no memory changes nothing.
    pub fn put(&mut self, item: ConnectionRecord) -> Result<(), AllocError>
        ensures ok { OnOk result (self.new ≡ put_by (connection_order item) self.old item) }
        ensures err { OnErr result (self.new ≡ self.old) }
    {
        let (call, device) = (item.call, item.device);
        let old = self.find(call, device);
        let new = old.is_none();
        insert_if(&mut self.keys, (call, device), new)?;
        match self.records.put(item) {
            Ok(()) => Ok(()),
            Err(error) => {
                remove_if(&mut self.keys, (call, device), new);
                Err(error)
            }
        }
    }

    /// Removes the connection of the call at the device.
    pub fn remove(&mut self, call: u64, device: DeviceId)
        ensures { self.new ≡ remove_by (at_connection call device) self.old }
    {
        self.records.remove((call, device));
        remove_if(&mut self.keys, (call, device), true);
    }

    /// The connections in ascending call and device, copied.
    pub fn copied(&self, alloc: Global) -> Result<Listed<ConnectionRecord>, AllocError>
        ensures { IfOk result (λ l. l ≡ self.now) }
    {
        self.records.copied(alloc)
    }

    // The connection at the key, if it is one of the call.
    fn of_key(&self, key: &(u64, DeviceId), call: u64) -> Option<ConnectionRecord>
        ensures { result ≡ of_key self.now call key.now }
    {
        if key.0 == call {
            self.find(call, key.1)
        } else {
            None
        }
    }

    // The keys of all connections of the call, and of the calls next to it those on their side of the device.
    fn near(&self, call: u64, device: DeviceId) -> Range<'_, (u64, DeviceId)>
        ensures { filter_map (of_key self.now call) result ≡ filter (λ c. c.call == call) self.now }
    {
        self.keys.range((start(call, device), end(call, device)))
    }

    // The first two connections of the call at the keys.
    fn first_two(
        &self,
        keys: Range<'_, (u64, DeviceId)>,
        call: u64,
    ) -> [Option<ConnectionRecord>; 2]
        ensures { result ≡ first_two (filter_map (of_key self.now call) keys.entry) }
    {
        let mut first = None;
        for key in keys {
            if let Some(c) = self.of_key(key, call) {
                if first.is_some() {
                    return [first, Some(c)];
                }
                first = Some(c);
            }
        }
        [first, None]
    }

    /// The first two connections of the call. A call has no more.
    pub fn of_call(&self, call: u64) -> [Option<ConnectionRecord>; 2]
        ensures { result ≡ first_two (filter (λ c. c.call == call) self.now) }
    {
        // The device of any connection bounds the search.
        match self.keys.first() {
            None => [None, None],
            Some(any) => self.first_two(self.near(call, any.1), call),
        }
    }

    /// The other party of the connection's call.
    pub fn other_of(&self, connection: &ConnectionRecord) -> Option<ConnectionRecord>
        ensures { result ≡ find (is_other_of connection.now) self.now }
    {
        for key in self.near(connection.call, connection.device) {
            if let Some(other) = self.of_key(key, connection.call) {
                if other.device != connection.device {
                    return Some(other);
                }
            }
        }
        None
    }
}
