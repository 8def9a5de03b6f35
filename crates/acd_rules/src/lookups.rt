//! The look-ups that the tests of rules make.

ghost use Rattle.std.specs.Prelude.{◌≡◌, find};
ghost use Rattle.acd_terms.specs.declared.record.AgentRecord.{AgentRecord};
ghost use Rattle.acd_model.specs.Scans.{group_of, station_of, call_of, is_group, is_station, is_planned, agent_at, has};
ghost use Rattle.acd_rules.specs.Groups.{HasAllWith, number_or_none, group_number, station_number, call_number, seat_number, party_call, party_device, party_place, party_group};
ghost use Rattle.acd_rules.specs.SortedRecords.{IsGrouped};

use crate::grouped::Grouped;
use acd_terms::{
    AgentRecord, CallRecord, ConnectionRecord, DeviceId, GroupRecord, Rows, StationRecord, find,
};
use std::alloc::Global;

// The number of a device that may be there. No device has the number 0.
fn number_or_none(device: Option<DeviceId>) -> u64
    ensures { result ≡ number_or_none device }
{
    device.map_or(0, |d| d.number())
}

/// Rows, with their lists sorted by the keys of the look-ups, so that no look-up scans a whole list. A list that there
/// was no memory to sort is scanned.
#[derive(Drop)]
pub struct Lookups<'a> {
    pub rows: &'a Rows,
    groups: Grouped<'a, GroupRecord>,
    stations: Grouped<'a, StationRecord>,
    calls: Grouped<'a, CallRecord>,
    agents: Grouped<'a, AgentRecord>,
    by_call: Grouped<'a, ConnectionRecord>,
    by_device: Grouped<'a, ConnectionRecord>,
    by_place: Grouped<'a, ConnectionRecord>,
    by_group: Grouped<'a, ConnectionRecord>,
    ghost groups_are: { IsGrouped group_number rows.now.groups groups },
    ghost stations_are: { IsGrouped station_number rows.now.stations stations },
    ghost calls_are: { IsGrouped call_number rows.now.calls calls },
    ghost agents_are: { IsGrouped seat_number rows.now.agents agents },
    ghost by_call_are: { IsGrouped party_call rows.now.connections by_call },
    ghost by_device_are: { IsGrouped party_device rows.now.connections by_device },
    ghost by_place_are: { IsGrouped party_place rows.now.connections by_place },
    ghost by_group_are: { IsGrouped party_group rows.now.connections by_group },
}

impl<'a> Lookups<'a> {
    pub fn new(alloc: Global, rows: &'a Rows) -> Self
        ensures { result.rows.now ≡ rows.now }
    {
        let connections = rows.connections.as_slice();
        Lookups {
            rows,
            groups: Grouped::by(alloc, rows.groups.as_slice(), |g| g.device.number()),
            stations: Grouped::by(alloc, rows.stations.as_slice(), |s| s.device.number()),
            calls: Grouped::by(alloc, rows.calls.as_slice(), |c| c.call),
            agents: Grouped::by(alloc, rows.agents.as_slice(), |a| number_or_none(a.station)),
            by_call: Grouped::by(alloc, connections, |x| x.call),
            by_device: Grouped::by(alloc, connections, |x| x.device.number()),
            by_place: Grouped::by(alloc, connections, |x| x.place.unwrap_or(0)),
            by_group: Grouped::by(alloc, connections, |x| number_or_none(x.group)),
        }
    }

    #[tactic(auto, unfolding(acd_model::specs::Scans::group_of))]
    fn group(&self, device: DeviceId) -> Option<GroupRecord>
        ensures { result ≡ group_of self.now.rows.now device }
    {
        find(
            self.groups.with(device.number(), |g| g.device.number()),
            device,
        )
    }

    #[tactic(auto, unfolding(acd_model::specs::Scans::station_of))]
    fn station(&self, device: DeviceId) -> Option<StationRecord>
        ensures { result ≡ station_of self.now.rows.now device }
    {
        find(
            self.stations.with(device.number(), |s| s.device.number()),
            device,
        )
    }

    #[tactic(auto, unfolding(acd_model::specs::Scans::call_of))]
    pub fn call(&self, call: u64) -> Option<CallRecord>
        ensures { result ≡ call_of self.now.rows.now call }
    {
        find(self.calls.with(call, |c| c.call), call)
    }

    pub fn is_group(&self, device: DeviceId) -> bool
        ensures { result ≡ is_group self.now.rows.now device }
    {
        self.group(device).is_some()
    }

    pub fn is_station(&self, device: DeviceId) -> bool
        ensures { result ≡ is_station self.now.rows.now device }
    {
        self.station(device).is_some()
    }

    /// Groups and stations are planned, external callers are not.
    pub fn is_planned(&self, device: DeviceId) -> bool
        ensures { result ≡ is_planned self.now.rows.now device }
    {
        self.is_group(device) || self.is_station(device)
    }

    /// The first agent logged on at the station.
    #[tactic(auto, unfolding(acd_model::specs::Scans::agent_at))]
    pub fn agent_at(&self, station: DeviceId) -> Option<AgentRecord>
        ensures { result ≡ agent_at self.now.rows.now station }
    {
        first_at(self.agents_at(station), station)
    }

    /// The agents logged on at the station, and maybe others.
    #[tactic(auto, using(crate::proofs::LookUpLemmas::looked_up))]
    pub fn agents_at(&self, station: DeviceId) -> &[AgentRecord]
        ensures { HasAllWith seat_number station result.now self.now.rows.now.agents }
    {
        self.agents
            .with(station.number(), |a| number_or_none(a.station))
    }

    /// The connections of the call, and maybe others.
    #[tactic(auto, using(crate::proofs::LookUpLemmas::looked_up))]
    pub fn of_call(&self, call: u64) -> &[ConnectionRecord]
        ensures { HasAllWith party_call call result.now self.now.rows.now.connections }
    {
        self.by_call.with(call, |x| x.call)
    }

    /// The connections at the device, and maybe others.
    #[tactic(auto, using(crate::proofs::LookUpLemmas::looked_up))]
    pub fn at_device(&self, device: DeviceId) -> &[ConnectionRecord]
        ensures { HasAllWith party_device device result.now self.now.rows.now.connections }
    {
        self.by_device.with(device.number(), |x| x.device.number())
    }

    /// The connections with the place, and maybe others.
    #[tactic(auto, using(crate::proofs::LookUpLemmas::looked_up))]
    pub fn with_place(&self, place: u64) -> &[ConnectionRecord]
        ensures { HasAllWith party_place place result.now self.now.rows.now.connections }
    {
        self.by_place.with(place, |x| x.place.unwrap_or(0))
    }

    /// The connections with the group, and maybe others.
    #[tactic(auto, using(crate::proofs::LookUpLemmas::looked_up))]
    pub fn of_group(&self, group: DeviceId) -> &[ConnectionRecord]
        ensures { HasAllWith party_group group result.now self.now.rows.now.connections }
    {
        self.by_group
            .with(group.number(), |x| number_or_none(x.group))
    }
}

fn first_at(agents: &[AgentRecord], station: DeviceId) -> Option<AgentRecord>
    ensures { result ≡ find (λ (a : AgentRecord). has a.station station) agents.now }
{
    for a in agents {
        if a.station == Some(station) {
            return Some(*a);
        }
    }
    None
}
