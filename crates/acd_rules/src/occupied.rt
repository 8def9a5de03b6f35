//! The rules occupied, offer and balance.

ghost use Rattle.std.specs.Prelude.{◌≡◌, ◌<◌, ◌+◌, ◌^◌, ◌&&◌, ◌||◌, ◌==◌, length, filter};
ghost use Rattle.acd_terms.specs.Lists.{count};
ghost use Rattle.std.specs.List.{list_all, list_any};
ghost use Rattle.acd_model.specs.Scans.{is_idle, is_occupied, is_eligible, occupies_agent, occupies_station};
ghost use Rattle.acd_model.specs.OneOffer.{is_distributed_at};
ghost use Rattle.acd_model.specs.Rules.Occupied.{attends, is_attended, is_talking, is_busy_only_talking, keeps_occupied, keeps_offer, waits_in, rings_from, is_balanced, keeps_balance, talks_on, has_no_offer};

use crate::lookups::Lookups;
use acd_terms::{AgentRecord, ConnectionRecord, DeviceId, Figures, GroupRecord};

fn distributed_among(connections: &[ConnectionRecord], device: DeviceId) -> usize
    ensures { result ≡ length (filter (is_distributed_at device) connections.now) }
{
    connections
        .iter()
        .filter(|x| x.is_distributed() && x.device == device)
        .count()
}

fn distributed_at(lookups: &Lookups, device: DeviceId) -> usize
    ensures { result ≡ count (is_distributed_at device) lookups.now.rows.now.connections }
{
    distributed_among(lookups.at_device(device), device)
}

// An agent is there, ready where the connection alerts and busy where it is answered.
fn attends(connection: &ConnectionRecord, agent: Option<AgentRecord>) -> bool
    ensures { result ≡ attends connection.now agent }
{
    match agent {
        None => false,
        Some(a) => {
            (connection.state.is_alerting() && a.state.is_ready())
                || (connection.state.is_answered() && a.state.is_busy())
        }
    }
}

// A distributed connection is the one at its station, and its agent is there.
fn is_attended(lookups: &Lookups, connection: &ConnectionRecord) -> bool
    ensures { result ≡ is_attended lookups.now.rows.now connection.now }
{
    !connection.is_distributed()
        || (distributed_at(lookups, connection.device) <= 1
            && attends(connection, lookups.agent_at(connection.device)))
}

fn is_talking_among(connections: &[ConnectionRecord], agent: &AgentRecord) -> bool
    ensures { result ≡ list_any (talks_on agent.now) connections.now }
{
    connections.iter().any(|x| agent.station == Some(x.device)
        && x.is_distributed()
        && x.state.is_answered())
}

// An answered distributed connection is at the agent's station.
fn is_talking(lookups: &Lookups, agent: &AgentRecord) -> bool
    ensures { result ≡ is_talking lookups.now.rows.now agent.now }
{
    let Some(station) = agent.station else {
        return false;
    };
    is_talking_among(lookups.at_device(station), agent)
}

fn is_occupied_among(connections: &[ConnectionRecord], agent: &AgentRecord) -> bool
    ensures { result ≡ list_any (occupies_agent agent.now) connections.now }
{
    connections
        .iter()
        .any(|x| agent.station == Some(x.device) && x.is_distributed())
}

// A distributed connection is at the agent's station.
#[tactic(auto, unfolding(acd_model::specs::Scans::is_occupied))]
fn is_occupied(lookups: &Lookups, agent: &AgentRecord) -> bool
    ensures { result ≡ is_occupied lookups.now.rows.now agent.now }
{
    let Some(station) = agent.station else {
        return false;
    };
    is_occupied_among(lookups.at_device(station), agent)
}

// A busy agent talks, and a state is pending only for an occupied one.
fn is_busy_only_talking(lookups: &Lookups, agent: &AgentRecord) -> bool
    ensures { result ≡ is_busy_only_talking lookups.now.rows.now agent.now }
{
    (!agent.state.is_busy() || is_talking(lookups, agent))
        && (agent.pending.is_none() || is_occupied(lookups, agent))
}

fn are_all_attended(lookups: &Lookups) -> bool
    ensures { result ≡ list_all (is_attended lookups.now.rows.now)
        lookups.now.rows.now.connections }
{
    lookups
        .rows
        .connections
        .iter()
        .all(|x| is_attended(lookups, x))
}

fn are_busy_only_talking(lookups: &Lookups) -> bool
    ensures { let s = lookups.now.rows.now in
        result ≡ list_all (is_busy_only_talking s) s.agents }
{
    lookups
        .rows
        .agents
        .iter()
        .all(|a| is_busy_only_talking(lookups, a))
}

/// A station has at most one distributed connection, and with it an agent, ready or busy; no other
/// agent is busy or has a pending state.
#[tactic(auto, unfolding(acd_model::specs::Rules::Occupied::keeps_occupied))]
pub fn keeps_occupied(lookups: &Lookups) -> bool
    ensures { result ≡ keeps_occupied lookups.now.rows.now }
{
    are_all_attended(lookups) && are_busy_only_talking(lookups)
}

fn has_occupying_among(connections: &[ConnectionRecord], station: DeviceId) -> bool
    ensures { result ≡ list_any (occupies_station station) connections.now }
{
    connections
        .iter()
        .any(|x| x.device == station && x.state.is_occupying())
}

fn has_occupying(lookups: &Lookups, station: DeviceId) -> bool
    ensures { result ≡ list_any (occupies_station station) lookups.now.rows.now.connections }
{
    has_occupying_among(lookups.at_device(station), station)
}

// No connection at the station is live or on hold.
#[tactic(auto, unfolding(acd_model::specs::Scans::is_idle))]
fn is_idle(lookups: &Lookups, station: DeviceId) -> bool
    ensures { result ≡ is_idle lookups.now.rows.now station }
{
    !has_occupying(lookups, station)
}

// The agent is of the group, ready and unoccupied, at an idle station.
#[tactic(auto, unfolding(acd_model::specs::Scans::is_eligible))]
fn is_eligible(lookups: &Lookups, group: DeviceId, agent: &AgentRecord) -> bool
    ensures { result ≡ is_eligible lookups.now.rows.now group agent.now }
{
    let Some(station) = agent.station else {
        return false;
    };
    agent.groups.contains(group)
        && agent.state.is_ready()
        && !is_occupied(lookups, agent)
        && is_idle(lookups, station)
}

fn has_eligible(lookups: &Lookups, group: DeviceId) -> bool
    ensures { result ≡ list_any (is_eligible lookups.now.rows.now group)
        lookups.now.rows.now.agents }
{
    lookups
        .rows
        .agents
        .iter()
        .any(|a| is_eligible(lookups, group, a))
}

fn has_waiting_among(connections: &[ConnectionRecord], group: DeviceId) -> bool
    ensures { result ≡ list_any (waits_in group) connections.now }
{
    connections
        .iter()
        .any(|x| x.device == group && x.state.is_queued())
}

fn has_waiting(lookups: &Lookups, group: DeviceId) -> bool
    ensures { result ≡ list_any (waits_in group) lookups.now.rows.now.connections }
{
    has_waiting_among(lookups.at_device(group), group)
}

// No call waits in the group, or no agent of it is eligible.
#[tactic(auto, using(crate::proofs::RuleLists::none_left), unfolding(acd_model::specs::Scans::waiting_in, acd_model::specs::Scans::eligible_in))]
fn has_no_offer(lookups: &Lookups, group: DeviceId) -> bool
    ensures { result ≡ has_no_offer lookups.now.rows.now group }
{
    !has_waiting(lookups, group) || !has_eligible(lookups, group)
}

/// No group has both a waiting call and an eligible agent.
#[tactic(auto, unfolding(acd_model::specs::Rules::Occupied::keeps_offer))]
pub fn keeps_offer(lookups: &Lookups) -> bool
    ensures { result ≡ keeps_offer lookups.now.rows.now }
{
    lookups
        .rows
        .groups
        .iter()
        .all(|g| has_no_offer(lookups, g.device))
}

fn waiting_among(connections: &[ConnectionRecord], group: DeviceId) -> usize
    ensures { result ≡ length (filter (waits_in group) connections.now) }
{
    connections
        .iter()
        .filter(|x| x.device == group && x.state.is_queued())
        .count()
}

fn waiting_count(lookups: &Lookups, group: DeviceId) -> usize
    ensures { result ≡ count (waits_in group) lookups.now.rows.now.connections }
{
    waiting_among(lookups.at_device(group), group)
}

fn ringing_among(connections: &[ConnectionRecord], group: DeviceId) -> usize
    ensures { result ≡ length (filter (rings_from group) connections.now) }
{
    connections
        .iter()
        .filter(|x| x.group == Some(group) && x.state.is_alerting())
        .count()
}

fn ringing_count(lookups: &Lookups, group: DeviceId) -> usize
    ensures { result ≡ count (rings_from group) lookups.now.rows.now.connections }
{
    ringing_among(lookups.of_group(group), group)
}

// How many neither wait nor ring any more.
fn count_of_gone(figures: Figures) -> u128
    ensures exact { result ≡ figures.answered + figures.abandoned + figures.moved }
    ensures bound { result < 2 ^ 66 }
{
    u128::from(figures.answered) + u128::from(figures.abandoned) + u128::from(figures.moved)
}

// Each entry waits, rings, was answered, was abandoned or was moved.
fn is_balanced(lookups: &Lookups, group: &GroupRecord) -> bool
    ensures { result ≡ is_balanced lookups.now.rows.now group.now }
{
    let waiting = waiting_count(lookups, group.device) as u128;
    let ringing = ringing_count(lookups, group.device) as u128;
    u128::from(group.figures.entered) == waiting + ringing + count_of_gone(group.figures)
}

/// For each group, the calls that entered wait, ring, were answered, abandoned or moved.
#[tactic(auto, unfolding(acd_model::specs::Rules::Occupied::keeps_balance))]
pub fn keeps_balance(lookups: &Lookups) -> bool
    ensures { result ≡ keeps_balance lookups.now.rows.now }
{
    lookups.rows.groups.iter().all(|g| is_balanced(lookups, g))
}
