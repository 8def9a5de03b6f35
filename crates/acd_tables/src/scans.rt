//! The look-ups that aren't of one record by its key.

ghost use Rattle.std.specs.Prelude.{◌≡◌, None, length, filter, is_some, IfSome, IfOk};
ghost use Rattle.acd_terms.specs.Lists.{first_two};
ghost use Rattle.acd_model.specs.Scans.{is_group, agent_at, connections_of, other_of, is_live_at, is_idle, is_occupied, is_eligible, is_calling, is_used, queued_in_all};
ghost use Rattle.acd_model.specs.Choice.{first_waiting, first_eligible, offer_of};
ghost use Rattle.acd_tables.specs.IndexedRows.{pair_cmp, is_ringing, is_working, waiting_pairs, ready_pairs};
ghost use Rattle.acd_tables.specs.Sets.{IsSetOf};
ghost use Rattle.acd_tables.specs.Uses.{ringing_of, working_of, is_in_use};
ghost use Rattle.acd_tables.specs.FirstOffer.{offer_by_key};
ghost use Rattle.acd_tables.specs.AtDevice.{line_at, connections_at};
ghost use Rattle.std.specs.List.{filter_map};

use crate::indexes::OfferKey;
use crate::lines::lines_at;
use crate::sets::first_in;
use crate::tables::Tables;
use crate::uses::{Use, agent_at, is_in_use, is_ringing};
use acd_model::Offer;
use acd_terms::{AgentId, AgentRecord, ConnectionRecord, DeviceId};
use std::alloc::AllocError;
use std::collections::BTreeSet;
use std::collections::btree_set::{Iter, Range};

impl Tables {
    /// The agent logged on at the station.
    pub fn agent_at(&self, station: DeviceId) -> Option<AgentRecord>
        ensures { result ≡ agent_at self.now station }
    {
        agent_at(&self.records, &self.indexes.seats, station)
    }

    /// The first two connections of the call. A call has no more.
    pub fn connections_of(&self, call: u64) -> [Option<ConnectionRecord>; 2]
        ensures { result ≡ first_two (connections_of self.now call) }
    {
        self.records.connections_of(call)
    }

    /// The other party of the connection's call.
    pub fn other_of(&self, connection: &ConnectionRecord) -> Option<ConnectionRecord>
        ensures { result ≡ other_of self.now connection.now }
    {
        self.records.other_of(connection)
    }

    // The connection at the device of a call that is listed there. A range that has no end continues to other devices.
    fn line_at(&self, key: &(u64, u64), device: DeviceId) -> Option<ConnectionRecord>
        ensures { result ≡ line_at self.now device key.now }
    {
        if key.0 == device.number() {
            self.connection(key.1, device)
        } else {
            None
        }
    }

    // The connections at the device of the calls that are listed there.
    fn connections_among(
        &self,
        lines: Range<'_, (u64, u64)>,
        device: DeviceId,
    ) -> Result<Vec<ConnectionRecord>, AllocError>
        ensures { IfOk result (λ v. v.items ≡ filter_map (line_at self.now device) lines.entry) }
    {
        let mut found = Vec::new(self.alloc);
        for key in lines {
            if let Some(connection) = self.line_at(key, device) {
                found.push(connection)?;
            }
        }
        Ok(found)
    }

    /// The connections at the device, in ascending call, copied.
    pub fn connections_at(&self, device: DeviceId) -> Result<Vec<ConnectionRecord>, AllocError>
        ensures { IfOk result (λ v. v.items ≡ connections_at self.now device) }
    {
        self.connections_among(lines_at(&self.indexes.lines, device), device)
    }

    // A connection at the device uses it so.
    fn is_in_use(&self, device: DeviceId, kind: Use) -> bool
        ensures { result ≡ is_in_use self.now device None kind }
    {
        is_in_use(&self.records, &self.indexes.lines, device, None, kind)
    }

    /// A connection at the station is initiated, alerting or connected.
    #[tactic(auto, unfolding(acd_model::specs::Scans::is_live_at))]
    pub fn is_live_at(&self, station: DeviceId) -> bool
        ensures { result ≡ is_live_at self.now station }
    {
        self.is_in_use(station, Use::Live)
    }

    /// No connection at the station is live or on hold.
    #[tactic(auto, unfolding(acd_model::specs::Scans::is_idle))]
    pub fn is_idle(&self, station: DeviceId) -> bool
        ensures { result ≡ is_idle self.now station }
    {
        !self.is_in_use(station, Use::Occupying)
    }

    /// A distributed connection is at the agent's station.
    #[tactic(auto, unfolding(acd_model::specs::Scans::is_occupied))]
    pub fn is_occupied(&self, agent: &AgentRecord) -> bool
        ensures { result ≡ is_occupied self.now agent.now }
    {
        match agent.station {
            None => false,
            Some(station) => self.is_in_use(station, Use::Distributed),
        }
    }

    /// The caller of a live call has the number. It looks at the live calls.
    #[tactic(auto, unfolding(acd_model::specs::Scans::is_calling))]
    pub fn is_calling(&self, device: DeviceId) -> bool
        ensures { result ≡ is_calling self.now device }
    {
        for c in self.records.calls() {
            if c.caller == device {
                return true;
            }
        }
        false
    }

    /// The number is planned, or that of an external caller of a live call.
    #[tactic(auto, unfolding(acd_model::specs::Scans::is_used))]
    pub fn is_used(&self, device: DeviceId) -> bool
        ensures { result ≡ is_used self.now device }
    {
        self.is_planned(device) || self.is_calling(device)
    }

    /// The agent is of the group, ready and unoccupied, at an idle station.
    #[tactic(auto, unfolding(acd_model::specs::Scans::is_eligible))]
    pub fn is_eligible(&self, group: DeviceId, agent: &AgentRecord) -> bool
        ensures { result ≡ is_eligible self.now group agent.now }
    {
        let Some(station) = agent.station else {
            return false;
        };
        agent.groups.contains(group)
            && agent.state.is_ready()
            && !self.is_occupied(agent)
            && self.is_idle(station)
    }

    /// The queue of a planned group: place and call of those who wait there.
    pub fn queue_of(&self, group: DeviceId) -> Option<&BTreeSet<(u64, u64)>>
        ensures planned { is_some result ≡ is_group self.now group }
        ensures members { IfSome result
            (λ q. IsSetOf pair_cmp (waiting_pairs self.now group) q.now) }
    {
        if self.is_group(group) {
            self.indexes.queues.get(&group)
        } else {
            None
        }
    }

    /// The ready set of a planned group: stamp and number of the agents that may be offered a call.
    pub fn ready_of(&self, group: DeviceId) -> Option<&BTreeSet<(u64, AgentId)>>
        ensures planned { is_some result ≡ is_group self.now group }
        ensures members { IfSome result (λ r. IsSetOf pair_cmp (ready_pairs self.now group) r.now) }
    {
        if self.is_group(group) {
            self.indexes.ready.get(&group)
        } else {
            None
        }
    }

    /// The place and call of the one that waits first in the group.
    pub fn first_waiting(&self, group: DeviceId) -> Option<(u64, u64)>
        ensures { result ≡ first_waiting self.now group }
    {
        first_in(&self.indexes.queues, group)
    }

    /// The stamp and number of the agent that is ready longest in the group.
    pub fn first_eligible(&self, group: DeviceId) -> Option<(u64, AgentId)>
        ensures { result ≡ first_eligible self.now group }
    {
        first_in(&self.indexes.ready, group)
    }

    // The offer in the group of the key, if it still has that priority, and has both.
    fn offer_by_key(&self, key: &OfferKey) -> Option<Offer>
        ensures { result ≡ offer_by_key self.now key.now }
    {
        let group = self.group(key.1)?;
        if group.priority != key.0.0 {
            return None;
        }
        let (_, call) = self.first_waiting(group.device)?;
        let (_, agent) = self.first_eligible(group.device)?;
        Some(Offer {
            group: group.device,
            call,
            agent,
        })
    }

    /// The offer that is to be made next: of the groups that have a waiting call and an eligible agent, in the one of
    /// highest priority, and of equal priority of least number; the call of least place and the agent of least stamp.
    /// It looks at the groups that may have an offer, in their order.
    pub fn first_offer(&self) -> Option<Offer>
        ensures { result ≡ offer_of self.now }
    {
        for key in &self.indexes.offering {
            let offer = self.offer_by_key(key);
            if offer.is_some() {
                return offer;
            }
        }
        None
    }

    /// Call and device of the offers that ring, in ascending order.
    pub fn ringing_keys(&self) -> Iter<'_, (u64, DeviceId)>
        ensures { filter_map (ringing_of self.now) result
            ≡ filter is_ringing self.now.connections }
    {
        self.indexes.ringing.iter()
    }

    /// The numbers of the agents in after-call work, in ascending order.
    pub fn working_keys(&self) -> Iter<'_, AgentId>
        ensures { filter_map (working_of self.now) result ≡ filter is_working self.now.agents }
    {
        self.indexes.working.iter()
    }

    // The connection of the call at the device, if it is an offer that rings.
    fn ringing_at(&self, call: u64, device: DeviceId) -> Option<ConnectionRecord>
        ensures { result ≡ ringing_of self.now (call, device) }
    {
        match self.connection(call, device) {
            None => None,
            Some(c) => { if is_ringing(&c) { Some(c) } else { None } }
        }
    }

    // The agent, if in after-call work.
    fn working_of(&self, agent: AgentId) -> Option<AgentRecord>
        ensures { result ≡ working_of self.now agent }
    {
        match self.agent(agent) {
            None => None,
            Some(a) => {
                if a.state.is_working_after_call() {
                    Some(a)
                } else {
                    None
                }
            }
        }
    }

    /// The offers that ring, in ascending call and device, copied.
    pub fn ringing(&self) -> Result<Vec<ConnectionRecord>, AllocError>
        ensures { IfOk result (λ v. v.items ≡ filter is_ringing self.now.connections) }
    {
        let mut ringing = Vec::new(self.alloc);
        for key in &self.indexes.ringing {
            if let Some(connection) = self.ringing_at(key.0, key.1) {
                ringing.push(connection)?;
            }
        }
        Ok(ringing)
    }

    /// The agents in after-call work, in ascending number, copied.
    pub fn working(&self) -> Result<Vec<AgentRecord>, AllocError>
        ensures { IfOk result (λ v. v.items ≡ filter is_working self.now.agents) }
    {
        let mut working = Vec::new(self.alloc);
        for number in &self.indexes.working {
            if let Some(agent) = self.working_of(*number) {
                working.push(agent)?;
            }
        }
        Ok(working)
    }

    /// How many connections are queued.
    pub fn queued_count(&self) -> usize
        ensures { result ≡ length (queued_in_all self.now) }
    {
        self.indexes.queued
    }
}
