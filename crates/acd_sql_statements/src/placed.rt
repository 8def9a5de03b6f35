//! Whether further groups and priorities belong to the rows beside them.

ghost use Rattle.std.specs.Prelude.{◌≡◌, ◌==◌, false, nat_le, length};
ghost use Rattle.std.specs.List.{list_any, list_all};
ghost use Rattle.acd_sql_columns.specs.declared.tables.Table.TheVariants as table;
ghost use Rattle.acd_sql_columns.specs.Relations.{groups_beside, is_above, is_after, are_after, are_of_groups};
ghost use Rattle.acd_sql_statements.specs.ReadsBetween.{LooksAt};
ghost use Rattle.acd_sql_statements.specs.Looks.{HasGoodOne, HasLookCauseIn};
ghost use Rattle.acd_sql_statements.specs.QueryResults.{pairs_of_agents, pairs_there, placed_pairs, placed_priorities, priorities_of_groups, HasGoodPairs, HasGoodPriorities};

use crate::look::further_rows;
use crate::reads::records;
use crate::select;
use acd_sql_columns::{AgentRow, GroupPriority, GroupRow};
use acd_terms::{AgentId, DeviceId};
use sqlite::{Alter, Connection, Error};
use std::alloc::Global;

fn is_above(first: Option<DeviceId>, group: DeviceId) -> bool
    ensures { result ≡ is_above first group }
{
    match first {
        None => false,
        Some(first) => first < group,
    }
}

fn is_after(agent: &AgentRow, pair: &(AgentId, DeviceId)) -> bool
    ensures { result ≡ is_after agent.now pair.now }
{
    agent.agent == pair.0 && is_above(agent.group, pair.1)
}

fn has_agent(agents: &[AgentRow], pair: &(AgentId, DeviceId)) -> bool
    ensures { result ≡ list_any (λ a. is_after a pair.now) agents.now }
{
    agents.iter().any(|agent| is_after(agent, pair))
}

fn count_of(pairs: &[(AgentId, DeviceId)], agent: AgentId) -> usize
    ensures { result ≡ length (groups_beside pairs.now agent) }
{
    let mut count = 0;
    for pair in pairs {
        if pair.0 == agent {
            count += 1;
        }
    }
    count
}

fn has_few(pairs: &[(AgentId, DeviceId)], agent: &AgentRow) -> bool
    ensures { result ≡ nat_le (length (groups_beside pairs.now agent.now.agent)) 7 }
{
    count_of(pairs, agent.agent) <= 7
}

fn have_agents(agents: &[AgentRow], pairs: &[(AgentId, DeviceId)]) -> bool
    ensures { result ≡ list_all (λ p. list_any (λ a. is_after a p) agents.now) pairs.now }
{
    pairs.iter().all(|pair| has_agent(agents, pair))
}

fn have_few(agents: &[AgentRow], pairs: &[(AgentId, DeviceId)]) -> bool
    ensures { result ≡ list_all
        (λ a. nat_le (length (groups_beside pairs.now a.agent)) 7) agents.now }
{
    agents.iter().all(|agent| has_few(pairs, agent))
}

fn are_after(agents: &[AgentRow], pairs: &[(AgentId, DeviceId)]) -> bool
    ensures { result ≡ are_after agents.now pairs.now }
{
    have_agents(agents, pairs) && have_few(agents, pairs)
}

// Whether the pairs belong to the agents that are there.
fn are_of_agents_there<S: Alter>(
    alloc: Global,
    conn: &mut Connection<S>,
    pairs: &[(AgentId, DeviceId)],
) -> Result<bool, Error>
    ensures looks { LooksAt S.Store conn.old conn.new result (pairs_of_agents pairs.now) }
    ensures looked { HasLookCauseIn (HasGoodOne table.Agents) S.Store conn.old conn.new result }
{
    let agents = select::records::<AgentRow, S>(alloc, conn)?;
    Ok(are_after(&agents, pairs))
}

// The pairs, in the order of the file.
fn further_pairs<S: Alter>(
    alloc: Global,
    conn: &mut Connection<S>,
) -> Result<Vec<(AgentId, DeviceId)>, Error>
    ensures looks { LooksAt S.Store conn.old conn.new result pairs_there }
    ensures looked { HasLookCauseIn (HasGoodOne table.AgentGroups)
        S.Store conn.old conn.new result }
{
    let rows = further_rows(conn)?;
    records(alloc, &rows)
}

/// Whether each further group comes after the first one of its agent, who has seven at most. A value that is out of its
/// range is a failure of the store.
pub fn are_further_placed<S: Alter>(alloc: Global, conn: &mut Connection<S>) -> Result<bool, Error>
    ensures looks { LooksAt S.Store conn.old conn.new result placed_pairs }
    ensures looked { HasLookCauseIn HasGoodPairs S.Store conn.old conn.new result }
{
    let pairs = further_pairs(alloc, conn)?;
    are_of_agents_there(alloc, conn, &pairs)
}

fn has_group(groups: &[GroupRow], priority: &GroupPriority) -> bool
    ensures { result ≡ list_any (λ g. g.device == priority.now.device) groups.now }
{
    groups.iter().any(|group| group.device == priority.device)
}

fn are_of_groups(groups: &[GroupRow], priorities: &[GroupPriority]) -> bool
    ensures { result ≡ are_of_groups groups.now priorities.now }
{
    priorities
        .iter()
        .all(|priority| has_group(groups, priority))
}

// Whether the priorities belong to the groups that are there.
fn are_of_groups_there<S: Alter>(
    alloc: Global,
    conn: &mut Connection<S>,
    priorities: &[GroupPriority],
) -> Result<bool, Error>
    ensures looks { LooksAt S.Store conn.old conn.new result (priorities_of_groups priorities.now) }
    ensures looked { HasLookCauseIn (HasGoodOne table.Groups) S.Store conn.old conn.new result }
{
    let groups = select::records::<GroupRow, S>(alloc, conn)?;
    Ok(are_of_groups(&groups, priorities))
}

/// Whether each priority is of a group. A value that is out of its range is a failure of the store.
pub fn are_priorities_placed<S: Alter>(
    alloc: Global,
    conn: &mut Connection<S>,
) -> Result<bool, Error>
    ensures looks { LooksAt S.Store conn.old conn.new result placed_priorities }
    ensures looked { HasLookCauseIn HasGoodPriorities S.Store conn.old conn.new result }
{
    let priorities = select::records::<GroupPriority, S>(alloc, conn)?;
    are_of_groups_there(alloc, conn, &priorities)
}
