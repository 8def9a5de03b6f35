//! The rules limits, order, device, agent and monitor.

ghost use Rattle.std.specs.Prelude.{◌≡◌, nat_le, length, filter};
ghost use Rattle.std.specs.List.{list_all};
ghost use Rattle.acd_terms.specs.Groups.{is_choice};
ghost use Rattle.acd_terms.specs.Lists.{count};
ghost use Rattle.acd_terms.specs.declared.record.AgentRecord.{AgentRecord};
ghost use Rattle.acd_terms.specs.declared.record.GroupRecord.{GroupRecord};
ghost use Rattle.acd_model.specs.Scans.{has, is_group};
ghost use Rattle.acd_model.specs.Rules.Plan.{keeps_limits, keeps_order, keeps_device, keeps_agent, keeps_monitor, is_station_there, are_planned_groups, is_alone_at, is_seated};

use crate::lookups::Lookups;
use acd_terms::{AgentRecord, DeviceId, GroupRecord, Groups, Rows, ascends};

fn are_priorities_low(groups: &[GroupRecord]) -> bool
    ensures { result ≡ list_all (λ (g : GroupRecord). nat_le g.priority 9) groups.now }
{
    groups.iter().all(|g| g.priority.number() <= 9)
}

/// No limit is above the greatest and no list above its limit; no last number is above its bound,
/// and no priority above 9.
#[tactic(auto, unfolding(acd_model::specs::Rules::Plan::keeps_limits))]
pub fn keeps_limits(rows: &Rows) -> bool
    ensures { result ≡ keeps_limits rows.now }
{
    let limits = rows.limits;
    limits.fits()
        && rows.groups.len() as u64 <= limits.groups
        && rows.stations.len() as u64 <= limits.stations
        && rows.agents.len() as u64 <= limits.agents
        && rows.calls.len() as u64 <= limits.calls
        && rows.monitors.len() as u64 <= limits.monitors
        && rows.last_stamp <= limits.requests
        && rows.last_call <= rows.last_stamp
        && rows.last_monitor <= rows.last_stamp
        && are_priorities_low(rows.groups.as_slice())
}

/// Each list is strictly ascending in its key.
#[tactic(auto, unfolding(acd_model::specs::Rules::Plan::keeps_order))]
pub fn keeps_order(rows: &Rows) -> bool
    ensures { result ≡ keeps_order rows.now }
{
    ascends(rows.groups.as_slice())
        && ascends(rows.stations.as_slice())
        && ascends(rows.agents.as_slice())
        && ascends(rows.calls.as_slice())
        && ascends(rows.connections.as_slice())
        && ascends(rows.monitors.as_slice())
}

/// No device is both group and station.
#[tactic(auto, unfolding(acd_model::specs::Rules::Plan::keeps_device))]
pub fn keeps_device(lookups: &Lookups) -> bool
    ensures { result ≡ keeps_device lookups.now.rows.now }
{
    lookups
        .rows
        .groups
        .iter()
        .all(|g| !lookups.is_station(g.device))
}

// The station, which has to be there, is planned.
fn is_station_there(lookups: &Lookups, station: Option<DeviceId>) -> bool
    ensures { result ≡ is_station_there lookups.now.rows.now station }
{
    match station {
        None => false,
        Some(d) => lookups.is_station(d),
    }
}

// One to eight, in ascending number. The type says all of that but that there is one.
fn is_choice(groups: &Groups) -> bool
    ensures { result ≡ is_choice groups.now }
{
    !groups.as_slice().is_empty()
}

fn are_all_planned(lookups: &Lookups, groups: &[DeviceId]) -> bool
    ensures { result ≡ list_all (is_group lookups.now.rows.now) groups.now }
{
    groups.iter().all(|g| lookups.is_group(*g))
}

// One to eight, in ascending number, and each is a planned group.
fn are_planned_groups(lookups: &Lookups, groups: &Groups) -> bool
    ensures { result ≡ are_planned_groups lookups.now.rows.now groups.now }
{
    is_choice(groups) && are_all_planned(lookups, groups.as_slice())
}

fn logged_on_among(agents: &[AgentRecord], station: DeviceId) -> usize
    ensures { result ≡ length (filter (λ (b : AgentRecord). has b.station station) agents.now) }
{
    agents.iter().filter(|b| b.station == Some(station)).count()
}

// How many agents are logged on at the station.
fn agents_at(lookups: &Lookups, station: DeviceId) -> usize
    ensures { result ≡ count
        (λ (b : AgentRecord). has b.station station) lookups.now.rows.now.agents }
{
    logged_on_among(lookups.agents_at(station), station)
}

// No other agent is logged on there.
fn is_alone_at(lookups: &Lookups, station: Option<DeviceId>) -> bool
    ensures { result ≡ is_alone_at lookups.now.rows.now station }
{
    match station {
        None => true,
        Some(d) => agents_at(lookups, d) <= 1,
    }
}

// An agent in null has no station, groups or pending state, any other a planned station and one to
// eight planned groups.
fn is_seated(lookups: &Lookups, agent: &AgentRecord) -> bool
    ensures { result ≡ is_seated lookups.now.rows.now agent.now }
{
    let at_its_place = if agent.state.is_null() {
        agent.station.is_none() && agent.groups.is_empty() && agent.pending.is_none()
    } else {
        is_station_there(lookups, agent.station) && are_planned_groups(lookups, &agent.groups)
    };
    at_its_place && is_alone_at(lookups, agent.station)
}

/// Each agent is where its state says, and no two are at one station.
#[tactic(auto, unfolding(acd_model::specs::Rules::Plan::keeps_agent))]
pub fn keeps_agent(lookups: &Lookups) -> bool
    ensures { result ≡ keeps_agent lookups.now.rows.now }
{
    lookups.rows.agents.iter().all(|a| is_seated(lookups, a))
}

/// A monitor's device is planned, and its identifier and event are not above the last.
#[tactic(auto, unfolding(acd_model::specs::Rules::Plan::keeps_monitor))]
pub fn keeps_monitor(lookups: &Lookups) -> bool
    ensures { result ≡ keeps_monitor lookups.now.rows.now }
{
    lookups.rows.monitors.iter().all(|m| {
        lookups.is_planned(m.device)
            && m.monitor <= lookups.rows.last_monitor
            && m.after_event <= lookups.rows.last_event
    })
}
