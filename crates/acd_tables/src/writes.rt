//! The writes of the tables. Each changes the one record or the numbers that it names, and keeps the indexes.

ghost use Rattle.std.specs.Prelude.{◌≡◌, OnOk, OnErr};
ghost use Rattle.acd_model.specs.Writes.{with_group, with_station, with_agent, with_call, with_connection, with_monitor, without_call, without_connection, without_monitor, with_last, with_last_ids};

use crate::changes::{put_agent, put_connection, put_group, remove_connection};
use crate::tables::Tables;
use acd_terms::{
    AgentRecord, CallRecord, ConnectionRecord, DeviceId, GroupRecord, MonitorRecord, StationRecord,
};
use std::alloc::AllocError;

impl Tables {
    pub fn put_group(&mut self, item: GroupRecord) -> Result<(), AllocError>
        ensures ok { OnOk result (self.new ≡ with_group self.old item) }
        ensures err { OnErr result (self.new ≡ self.old) }
    {
        put_group(self.alloc, &mut self.records, &mut self.indexes, item)
    }

    pub fn put_station(&mut self, item: StationRecord) -> Result<(), AllocError>
        ensures ok { OnOk result (self.new ≡ with_station self.old item) }
        ensures err { OnErr result (self.new ≡ self.old) }
    {
        self.records.put_station(item)
    }

    pub fn put_agent(&mut self, item: AgentRecord) -> Result<(), AllocError>
        ensures ok { OnOk result (self.new ≡ with_agent self.old item) }
        ensures err { OnErr result (self.new ≡ self.old) }
    {
        put_agent(&mut self.records, &mut self.indexes, &item)
    }

    /// Puts the call, and raises the last call to a greater one.
    pub fn put_call(&mut self, item: CallRecord) -> Result<(), AllocError>
        ensures ok { OnOk result (self.new ≡ with_call self.old item) }
        ensures err { OnErr result (self.new ≡ self.old) }
    {
        self.records.put_call(item)
    }

    pub fn put_connection(&mut self, item: ConnectionRecord) -> Result<(), AllocError>
        ensures ok { OnOk result (self.new ≡ with_connection self.old item) }
        ensures err { OnErr result (self.new ≡ self.old) }
    {
        put_connection(&mut self.records, &mut self.indexes, &item)
    }

    /// Puts the monitor, and raises the last monitor to a greater one.
    pub fn put_monitor(&mut self, item: MonitorRecord) -> Result<(), AllocError>
        ensures ok { OnOk result (self.new ≡ with_monitor self.old item) }
        ensures err { OnErr result (self.new ≡ self.old) }
    {
        self.records.put_monitor(item)
    }

    pub fn remove_call(&mut self, call: u64) -> Result<(), AllocError>
        ensures ok { OnOk result (self.new ≡ without_call self.old call) }
        ensures err { OnErr result (self.new ≡ self.old) }
    {
        self.records.remove_call(call);
        Ok(())
    }

    pub fn remove_connection(&mut self, call: u64, device: DeviceId) -> Result<(), AllocError>
        ensures ok { OnOk result (self.new ≡ without_connection self.old call device) }
        ensures err { OnErr result (self.new ≡ self.old) }
    {
        remove_connection(&mut self.records, &mut self.indexes, call, device)
    }

    pub fn remove_monitor(&mut self, monitor: u64) -> Result<(), AllocError>
        ensures ok { OnOk result (self.new ≡ without_monitor self.old monitor) }
        ensures err { OnErr result (self.new ≡ self.old) }
    {
        self.records.remove_monitor(monitor);
        Ok(())
    }

    /// Sets how many requests were executed, the moment of the last one, and the last event.
    pub fn set_last(&mut self, stamp: u64, moment: u32, event: u64)
        ensures { self.new ≡ with_last self.old stamp moment event }
    {
        self.records.set_last(stamp, moment, event);
    }

    /// Sets the last call and the last monitor.
    pub fn set_last_ids(&mut self, call: u64, monitor: u64)
        ensures { self.new ≡ with_last_ids self.old call monitor }
    {
        self.records.set_last_ids(call, monitor);
    }
}
