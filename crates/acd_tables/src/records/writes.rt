//! The writes of the records. Each changes the one record or the numbers that it names.

ghost use Rattle.std.specs.Prelude.{◌≡◌, OnOk, OnErr};
ghost use Rattle.acd_model.specs.Writes.{with_group, with_station, with_agent, with_call, with_connection, with_monitor, without_call, without_connection, without_monitor, with_last, with_last_ids};
ghost use Rattle.acd_model.specs.Moves.{changed};

use super::Records;
use acd_model::Change;
use acd_terms::{
    AgentRecord, CallRecord, ConnectionRecord, DeviceId, GroupRecord, MonitorRecord, StationRecord,
};
use std::alloc::AllocError;

impl Records {
    #[tactic(auto, unfolding(acd_model::specs::Writes::with_group))]
    pub fn put_group(&mut self, item: GroupRecord) -> Result<(), AllocError>
        ensures ok { OnOk result (self.new ≡ with_group self.old item) }
        ensures err { OnErr result (self.new ≡ self.old) }
    {
        self.groups.put(item)
    }

    #[tactic(auto, unfolding(acd_model::specs::Writes::with_station))]
    pub fn put_station(&mut self, item: StationRecord) -> Result<(), AllocError>
        ensures ok { OnOk result (self.new ≡ with_station self.old item) }
        ensures err { OnErr result (self.new ≡ self.old) }
    {
        self.stations.put(item)
    }

    #[tactic(auto, unfolding(acd_model::specs::Writes::with_agent))]
    pub fn put_agent(&mut self, item: AgentRecord) -> Result<(), AllocError>
        ensures ok { OnOk result (self.new ≡ with_agent self.old item) }
        ensures err { OnErr result (self.new ≡ self.old) }
    {
        self.agents.put(item)
    }

    /// Puts the call, and raises the last call to a greater one.
    #[tactic(auto, unfolding(acd_model::specs::Writes::with_call))]
    pub fn put_call(&mut self, item: CallRecord) -> Result<(), AllocError>
        ensures ok { OnOk result (self.new ≡ with_call self.old item) }
        ensures err { OnErr result (self.new ≡ self.old) }
    {
        let last = self.last_call.max(item.call);
        self.calls.put(item)?;
        self.last_call = last;
        Ok(())
    }

    #[tactic(auto, unfolding(acd_model::specs::Writes::with_connection))]
    pub fn put_connection(&mut self, item: ConnectionRecord) -> Result<(), AllocError>
        ensures ok { OnOk result (self.new ≡ with_connection self.old item) }
        ensures err { OnErr result (self.new ≡ self.old) }
    {
        self.connections.put(item)
    }

    /// Puts the monitor, and raises the last monitor to a greater one.
    #[tactic(auto, unfolding(acd_model::specs::Writes::with_monitor))]
    pub fn put_monitor(&mut self, item: MonitorRecord) -> Result<(), AllocError>
        ensures ok { OnOk result (self.new ≡ with_monitor self.old item) }
        ensures err { OnErr result (self.new ≡ self.old) }
    {
        let last = self.last_monitor.max(item.monitor);
        self.monitors.put(item)?;
        self.last_monitor = last;
        Ok(())
    }

    #[tactic(auto, unfolding(acd_model::specs::Writes::without_call))]
    pub fn remove_call(&mut self, call: u64)
        ensures { self.new ≡ without_call self.old call }
    {
        self.calls.remove(call);
    }

    #[tactic(auto, unfolding(acd_model::specs::Writes::without_connection))]
    pub fn remove_connection(&mut self, call: u64, device: DeviceId)
        ensures { self.new ≡ without_connection self.old call device }
    {
        self.connections.remove(call, device);
    }

    #[tactic(auto, unfolding(acd_model::specs::Writes::without_monitor))]
    pub fn remove_monitor(&mut self, monitor: u64)
        ensures { self.new ≡ without_monitor self.old monitor }
    {
        self.monitors.remove(monitor);
    }

    /// Sets how many requests were executed, the moment of the last one, and the last event.
    #[tactic(auto, unfolding(acd_model::specs::Writes::with_last))]
    pub fn set_last(&mut self, stamp: u64, moment: u32, event: u64)
        ensures { self.new ≡ with_last self.old stamp moment event }
    {
        self.last_stamp = stamp;
        self.last_moment = moment;
        self.last_event = event;
    }

    /// Sets the last call and the last monitor.
    #[tactic(auto, unfolding(acd_model::specs::Writes::with_last_ids))]
    pub fn set_last_ids(&mut self, call: u64, monitor: u64)
        ensures { self.new ≡ with_last_ids self.old call monitor }
    {
        self.last_call = call;
        self.last_monitor = monitor;
    }

    /// Makes the change. One that finds no memory changes nothing.
    pub fn change(&mut self, change: &Change) -> Result<(), AllocError>
        ensures ok { OnOk result (self.new ≡ changed self.old change.now) }
        ensures err { OnErr result (self.new ≡ self.old) }
    {
        match *change {
            Change::Nothing => Ok(()),
            Change::PutGroup(item) => self.put_group(item),
            Change::PutStation(item) => self.put_station(item),
            Change::PutAgent(item) => self.put_agent(item),
            Change::PutCall(item) => self.put_call(item),
            Change::PutConnection(item) => self.put_connection(item),
            Change::PutMonitor(item) => self.put_monitor(item),
            Change::RemoveCall(call) => {
                self.remove_call(call);
                Ok(())
            }
            Change::RemoveConnection(call, device) => {
                self.remove_connection(call, device);
                Ok(())
            }
            Change::RemoveMonitor(monitor) => {
                self.remove_monitor(monitor);
                Ok(())
            }
        }
    }
}
