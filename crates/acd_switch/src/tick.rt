//! tick: offers that rang too long go back, and after-call work that lasted long enough ends.

ghost use Rattle.std.specs.Prelude.{◌≡◌, OnOk, IfOk, filter};
ghost use Rattle.std.specs.List.{list_any};
ghost use Rattle.acd_model.specs.Scans.{group_of};
ghost use Rattle.acd_model.specs.Tick.{is_over, ring_of, wrap_of, is_overdue, overdue_in, return_moves, is_wrapped_up, wrapped_up_in, wrap_up_moves, returns, wraps, tick};
ghost use Rattle.acd_laws.specs.Due.{is_due};
ghost use Rattle.acd_switch.specs.CarriedOutMoves.{Carries, CarriesAt};

use crate::journal::Journal;
use acd_services::{go_from, return_to};
use acd_tables::Tables;
use acd_terms::{AgentRecord, AgentState, ConnectionRecord, DeviceId, Turn};
use std::alloc::{AllocError, Global};

// So many seconds have passed since then. 0 seconds mean never.
fn is_over(seconds: u16, since: u32, moment: u32) -> bool
    ensures { result ≡ is_over seconds since moment }
{
    seconds != 0 && u64::from(since) + u64::from(seconds) <= u64::from(moment)
}

fn ring_of(tables: &Tables, group: DeviceId) -> u16
    ensures { result ≡ ring_of (group_of tables.now group) }
{
    match tables.group(group) {
        None => 0,
        Some(group) => group.ring.number(),
    }
}

fn wrap_of(tables: &Tables, group: DeviceId) -> u16
    ensures { result ≡ wrap_of (group_of tables.now group) }
{
    match tables.group(group) {
        None => 0,
        Some(group) => group.wrap.number(),
    }
}

#[tactic(auto, unfolding(acd_model::specs::Tick::is_overdue))]
fn is_overdue(tables: &Tables, moment: u32, connection: &ConnectionRecord) -> bool
    ensures { result ≡ is_overdue tables.now moment connection.now }
{
    if !connection.state.is_alerting() {
        return false;
    }
    let Some(group) = connection.group else {
        return false;
    };
    match connection.offered {
        None => false,
        Some(offered) => is_over(ring_of(tables, group), offered, moment),
    }
}

#[tactic(auto, unfolding(acd_model::specs::Tick::is_wrapped_up))]
fn is_wrapped_up(tables: &Tables, moment: u32, agent: &AgentRecord) -> bool
    ensures { result ≡ is_wrapped_up tables.now moment agent.now }
{
    if !agent.state.is_working_after_call() {
        return false;
    }
    match agent.groups.least() {
        None => false,
        Some(group) => is_over(wrap_of(tables, group), agent.since, moment),
    }
}

// Some offer rang too long. It looks at those that ring, and takes no memory.
fn has_overdue(tables: &Tables, moment: u32) -> bool
    ensures { result ≡ list_any (is_overdue tables.now moment) tables.now.connections }
{
    for key in tables.ringing_keys() {
        if let Some(connection) = tables.connection(key.0, key.1) {
            if is_overdue(tables, moment, &connection) {
                return true;
            }
        }
    }
    false
}

// Some agent's after-call work lasted long enough. It looks at those in after-call work, and takes no memory.
fn has_wrapped_up(tables: &Tables, moment: u32) -> bool
    ensures { result ≡ list_any (is_wrapped_up tables.now moment) tables.now.agents }
{
    for number in tables.working_keys() {
        if let Some(agent) = tables.agent(*number) {
            if is_wrapped_up(tables, moment, &agent) {
                return true;
            }
        }
    }
    false
}

/// Whether a tick at the moment would end some offer or after-call work.
#[tactic(auto, unfolding(acd_laws::specs::Due::is_due))]
pub fn is_due(tables: &Tables, moment: u32) -> bool
    ensures { result ≡ is_due tables.now moment }
{
    has_overdue(tables, moment) || has_wrapped_up(tables, moment)
}

// Those of the offers that rang too long.
#[inline(never)]
fn overdue_among(
    alloc: Global,
    tables: &Tables,
    moment: u32,
    ringing: &[ConnectionRecord],
) -> Result<Vec<ConnectionRecord>, AllocError>
    ensures { IfOk result (λ v. v.items ≡ filter (is_overdue tables.now moment) ringing.now) }
{
    let mut overdue = Vec::new(alloc);
    for connection in ringing {
        if is_overdue(tables, moment, connection) {
            overdue.push(*connection)?;
        }
    }
    Ok(overdue)
}

// The offers that rang too long, in ascending call number.
#[tactic(auto, unfolding(acd_model::specs::Tick::overdue_in))]
fn overdue_in(
    alloc: Global,
    tables: &Tables,
    moment: u32,
) -> Result<Vec<ConnectionRecord>, AllocError>
    ensures { IfOk result (λ v. v.items ≡ overdue_in tables.now moment) }
{
    let ringing = tables.ringing()?;
    if ringing.is_empty() {
        return Ok(ringing);
    }
    overdue_among(alloc, tables, moment, ringing.as_slice())
}

// Those of the agents in after-call work that did it long enough.
#[inline(never)]
fn wrapped_up_among(
    alloc: Global,
    tables: &Tables,
    moment: u32,
    working: &[AgentRecord],
) -> Result<Vec<AgentRecord>, AllocError>
    ensures { IfOk result (λ v. v.items ≡ filter (is_wrapped_up tables.now moment) working.now) }
{
    let mut rested = Vec::new(alloc);
    for agent in working {
        if is_wrapped_up(tables, moment, agent) {
            rested.push(*agent)?;
        }
    }
    Ok(rested)
}

// The agents whose after-call work lasted long enough, in ascending number.
#[tactic(auto, unfolding(acd_model::specs::Tick::wrapped_up_in))]
fn wrapped_up_in(
    alloc: Global,
    tables: &Tables,
    moment: u32,
) -> Result<Vec<AgentRecord>, AllocError>
    ensures { IfOk result (λ v. v.items ≡ wrapped_up_in tables.now moment) }
{
    let working = tables.working()?;
    if working.is_empty() {
        return Ok(working);
    }
    wrapped_up_among(alloc, tables, moment, working.as_slice())
}

// The call returns to the group that offered it, and the agent is released.
fn take_back(
    tables: &mut Tables,
    at: Turn,
    connection: &ConnectionRecord,
    journal: &mut Journal,
) -> Result<(), AllocError>
    ensures { OnOk result (Carries at.moment (return_moves tables.old at connection.now)
        tables journal) }
{
    let Some(group) = connection.group else {
        return Ok(());
    };
    let moves = return_to(tables, at, connection, group);
    journal.make_all(tables, at.moment, &moves)
}

// The agent's after-call work ends.
fn end_work(
    tables: &mut Tables,
    at: Turn,
    agent: &AgentRecord,
    journal: &mut Journal,
) -> Result<(), AllocError>
    ensures { OnOk result (Carries at.moment (wrap_up_moves at agent.now) tables journal) }
{
    let moves = [go_from(at, agent, AgentState::Ready)];
    journal.make_all(tables, at.moment, &moves)
}

fn return_overdue(
    alloc: Global,
    tables: &mut Tables,
    at: Turn,
    journal: &mut Journal,
) -> Result<(), AllocError>
    ensures { OnOk result (CarriesAt at returns tables journal) }
{
    let overdue = overdue_in(alloc, tables, at.moment)?;
    for connection in overdue.as_slice() {
        take_back(tables, at, connection, journal)?;
    }
    Ok(())
}

fn end_wrap_ups(
    alloc: Global,
    tables: &mut Tables,
    at: Turn,
    journal: &mut Journal,
) -> Result<(), AllocError>
    ensures { OnOk result (CarriesAt at wraps tables journal) }
{
    let rested = wrapped_up_in(alloc, tables, at.moment)?;
    for agent in rested.as_slice() {
        end_work(tables, at, agent, journal)?;
    }
    Ok(())
}

/// Takes overdue offers back, one call after the other, then ends after-call work. After an error
/// tables and journal are only to be dropped.
pub fn tick(
    alloc: Global,
    tables: &mut Tables,
    at: Turn,
    journal: &mut Journal,
) -> Result<(), AllocError>
    ensures { OnOk result (CarriesAt at tick tables journal) }
{
    return_overdue(alloc, tables, at, journal)?;
    end_wrap_ups(alloc, tables, at, journal)
}
