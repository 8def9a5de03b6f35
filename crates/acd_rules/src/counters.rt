//! The rule counters.

ghost use Rattle.std.specs.Prelude.{◌≡◌, ◌&&◌, length, filter};
ghost use Rattle.std.specs.List.{list_all};
ghost use Rattle.acd_terms.specs.Lists.{count};
ghost use Rattle.acd_model.specs.Rules.Counters.{is_stamp, is_moment_or_none, is_unique_place, is_offered_after, is_timed, is_countable, keeps_counters, has_place, is_agent_timed, is_call_timed};

use crate::lookups::Lookups;
use acd_terms::{ConnectionRecord, GroupRecord, Rows};

fn is_stamp(rows: &Rows, stamp: u64) -> bool
    ensures { result ≡ is_stamp rows.now stamp }
{
    1 <= stamp && stamp <= rows.last_stamp
}

fn is_moment_or_none(rows: &Rows, moment: Option<u32>) -> bool
    ensures { result ≡ is_moment_or_none rows.now moment }
{
    moment.is_none_or(|m| m <= rows.last_moment)
}

fn placed_among(connections: &[ConnectionRecord], place: u64) -> usize
    ensures { result ≡ length (filter (has_place place) connections.now) }
{
    connections
        .iter()
        .filter(|x| x.place == Some(place))
        .count()
}

fn connections_with(lookups: &Lookups, place: u64) -> usize
    ensures { result ≡ count (has_place place) lookups.now.rows.now.connections }
{
    placed_among(lookups.with_place(place), place)
}

// The place is a stamp, and no other connection has it.
fn is_unique_place(lookups: &Lookups, place: Option<u64>) -> bool
    ensures { result ≡ is_unique_place lookups.now.rows.now place }
{
    match place {
        None => true,
        Some(p) => is_stamp(lookups.rows, p) && connections_with(lookups, p) <= 1,
    }
}

fn is_offered_after(queued: Option<u32>, offered: Option<u32>) -> bool
    ensures { result ≡ is_offered_after queued offered }
{
    match (queued, offered) {
        (Some(queued), Some(offered)) => queued <= offered,
        _ => true,
    }
}

fn is_timed(lookups: &Lookups, connection: &ConnectionRecord) -> bool
    ensures { result ≡ is_timed lookups.now.rows.now connection.now }
{
    is_unique_place(lookups, connection.place)
        && is_moment_or_none(lookups.rows, connection.queued)
        && is_moment_or_none(lookups.rows, connection.offered)
        && is_offered_after(connection.queued, connection.offered)
}

// A group's counts are no more than is possible.
fn is_countable(rows: &Rows, group: &GroupRecord) -> bool
    ensures { result ≡ is_countable rows.now group.now }
{
    let figures = group.figures;
    figures.entered <= rows.last_stamp
        && figures.answered <= figures.entered
        && figures.abandoned <= figures.entered
        && figures.moved <= figures.entered
        && u128::from(figures.waited) <= u128::from(figures.answered) * u128::from(rows.last_moment)
}

fn are_agents_timed(rows: &Rows) -> bool
    ensures { result ≡ list_all (is_agent_timed rows.now) rows.now.agents }
{
    rows.agents
        .iter()
        .all(|a| is_stamp(rows, a.stamp) && a.since <= rows.last_moment)
}

fn are_calls_timed(rows: &Rows) -> bool
    ensures { result ≡ list_all (is_call_timed rows.now) rows.now.calls }
{
    rows.calls.iter().all(|c| c.since <= rows.last_moment)
}

fn are_connections_timed(lookups: &Lookups) -> bool
    ensures { result ≡ list_all (is_timed lookups.now.rows.now) lookups.now.rows.now.connections }
{
    lookups
        .rows
        .connections
        .iter()
        .all(|x| is_timed(lookups, x))
}

fn are_groups_countable(rows: &Rows) -> bool
    ensures { result ≡ list_all (is_countable rows.now) rows.now.groups }
{
    rows.groups.iter().all(|g| is_countable(rows, g))
}

/// Stamps and places are from 1 to the last stamp, moments up to the last, figures and events
/// within bounds.
#[tactic(auto, unfolding(acd_model::specs::Rules::Counters::keeps_counters))]
pub fn keeps_counters(lookups: &Lookups) -> bool
    ensures { result ≡ keeps_counters lookups.now.rows.now }
{
    let rows = lookups.rows;
    are_agents_timed(rows)
        && are_calls_timed(rows)
        && are_connections_timed(lookups)
        && are_groups_countable(rows)
        && u128::from(rows.last_event) <= 100000 * u128::from(rows.last_stamp)
}
