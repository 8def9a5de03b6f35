//! The groups and the agents, joined of what their tables hold.

ghost use Rattle.std.specs.Prelude.{◌≡◌, ◌⊎◌, ◌<◌, false, length, map, option_to_list, None, IfErr, IfOk, IfSome};
ghost use Rattle.acd_terms.specs.Groups.{are_groups};
ghost use Rattle.acd_sql_statements.specs.StoreFailures.{IsMemory};
ghost use Rattle.acd_sql_statements.specs.ReadFailures.{HasStray};
ghost use Rattle.acd_sql_columns.specs.Relations.{priority_of, joined_group, joined_agent, further_in};
ghost use Rattle.acd_sql_statements.specs.ReadsBetween.{AreItems, FindsIn, HasReadCauseWhere, LooksUp, LooksUpList};
ghost use Rattle.acd_sql_statements.specs.QueryResults.{groups_joined, AreAgentParts, AreAgentsOf, AreGroupsOf};

use crate::query::further_rows;
use crate::reads::{add, records};
use crate::select;
use acd_sql_columns::{AgentRow, GroupPriority, GroupRow};
use acd_terms::{AgentId, AgentRecord, DeviceArray, DeviceId, GroupRecord, Groups, Priority};
use sqlite::{Alter, Connection, Error, ErrorCode};
use std::alloc::Global;

// The priority of a group, and 0 where there is none.
fn priority_of(priorities: &[GroupPriority], device: DeviceId) -> Priority
    ensures { result ≡ priority_of priorities.now device }
{
    for one in priorities {
        if one.device == device {
            return one.priority;
        }
    }
    Priority::lowest()
}

fn joined_group(part: &GroupRow, priorities: &[GroupPriority]) -> GroupRecord
    ensures { result ≡ joined_group priorities.now part.now }
{
    part.with_priority(priority_of(priorities, part.device))
}

fn joined_groups(
    alloc: Global,
    parts: &[GroupRow],
    priorities: &[GroupPriority],
) -> Result<Vec<GroupRecord>, Error>
    ensures groups { IfOk result (AreItems (map (joined_group priorities.now) parts.now)) }
    ensures full { IfErr result IsMemory }
{
    let mut groups = Vec::new(alloc);
    for part in parts {
        add(&mut groups, joined_group(part, priorities))?;
    }
    Ok(groups)
}

// The groups of these parts.
fn ranked<S: Alter>(
    alloc: Global,
    conn: &mut Connection<S>,
    parts: &[GroupRow],
) -> Result<Vec<GroupRecord>, Error>
    ensures { LooksUp S.Store conn.old conn.new result (AreGroupsOf parts.now) }
{
    let priorities = select::records::<GroupPriority, S>(alloc, conn)?;
    joined_groups(alloc, parts, &priorities)
}

/// The groups.
pub(crate) fn groups<S: Alter>(
    alloc: Global,
    conn: &mut Connection<S>,
) -> Result<Vec<GroupRecord>, Error>
    ensures { LooksUpList S.Store conn.old conn.new result (λ c. c.rows.groups) }
{
    let parts = select::records::<GroupRow, S>(alloc, conn)?;
    ranked(alloc, conn, &parts)
}

// ---- agents

fn first(group: Option<DeviceId>) -> DeviceArray
    ensures { result ≡ option_to_list group }
{
    match group {
        None => DeviceArray::none(),
        Some(group) => DeviceArray::one(group),
    }
}

// The groups of an agent: its first one, and those beside it. None where they are more than eight.
fn groups_of(part: &AgentRow, further: &[(AgentId, DeviceId)]) -> Option<DeviceArray>
    ensures groups { IfSome result (λ groups. groups ≡ groups_joined further.now part.now) }
    ensures many { result ≡ None → 8 < length (groups_joined further.now part.now) }
{
    let mut groups = first(part.group);
    for item in further {
        if item.0 == part.agent {
            if groups.len() >= 8 {
                return None;
            }
            groups.push(item.1);
        }
    }
    Some(groups)
}

// The same, where they ascend.
fn ascending(list: &DeviceArray) -> Option<Groups>
    ensures groups { IfSome result (λ groups. groups ≡ list.now) }
    ensures other { result ≡ None → are_groups list.now ≡ false }
{
    let groups = Groups::in_order(list.as_slice())?;
    if groups.as_slice() == list.as_slice() {
        Some(groups)
    } else {
        None
    }
}

fn joined_agent(part: &AgentRow, further: &[(AgentId, DeviceId)]) -> Option<AgentRecord>
    ensures agent { IfSome result (λ agent. agent ≡ joined_agent further.now part.now) }
    ensures other { result ≡ None → are_groups (joined_agent further.now part.now).groups ≡ false }
{
    let groups = groups_of(part, further)?;
    let groups = ascending(&groups)?;
    Some(part.with_groups(groups))
}

fn joined_agents(
    alloc: Global,
    parts: &[AgentRow],
    further: &[(AgentId, DeviceId)],
) -> Result<Vec<AgentRecord>, Error>
    ensures agents { IfOk result (AreItems (map (joined_agent further.now) parts.now)) }
    ensures other { IfErr result (λ e. IsMemory e ⊎ HasStray further.now parts.now) }
{
    let mut agents = Vec::new(alloc);
    for part in parts {
        match joined_agent(part, further) {
            Some(agent) => add(&mut agents, agent)?,
            None => return Err(Error::SqliteFailure(ErrorCode::DatabaseCorrupt)),
        }
    }
    Ok(agents)
}

// The further groups, each beside its agent.
fn further<S: Alter>(
    alloc: Global,
    conn: &mut Connection<S>,
) -> Result<Vec<(AgentId, DeviceId)>, Error>
    ensures { LooksUpList S.Store conn.old conn.new result (λ c. further_in c.rows.agents) }
{
    let rows = further_rows(conn)?;
    records(alloc, &rows)
}

// The agents of these parts.
fn grouped<S: Alter>(
    alloc: Global,
    conn: &mut Connection<S>,
    parts: &[AgentRow],
) -> Result<Vec<AgentRecord>, Error>
    ensures found { FindsIn S.Store conn.old conn.new result (AreAgentsOf parts.now) }
    ensures cause { HasReadCauseWhere (AreAgentParts parts.now) S.Store conn.old conn.new result }
{
    let further = further(alloc, conn)?;
    joined_agents(alloc, parts, &further)
}

/// The agents. One whose groups are more than eight, or don't ascend, is a failure of the store.
pub(crate) fn agents<S: Alter>(
    alloc: Global,
    conn: &mut Connection<S>,
) -> Result<Vec<AgentRecord>, Error>
    ensures { LooksUpList S.Store conn.old conn.new result (λ c. c.rows.agents) }
{
    let parts = select::records::<AgentRow, S>(alloc, conn)?;
    grouped(alloc, conn, &parts)
}
