//! The statements that put a group and an agent, each with its rows in another table.

ghost use Rattle.acd_sql_columns.specs.Transactions.{Fits, FiguresFitColumns};
ghost use Rattle.acd_sql_statements.specs.InTransaction.{WritesRow};
ghost use Rattle.acd_sql_statements.specs.Statements.{dropping_further, inserting_all, inserting_further, putting_agent, putting_group, putting_priority};

use crate::put::{put, remove};
use crate::write::write;
use acd_sql_columns::texts::{DELETE_AGENT_GROUPS, INSERT_AGENT_GROUP};
use acd_sql_columns::{AgentRow, GroupPriority, GroupRow, bind};
use acd_terms::{AgentId, AgentRecord, DeviceId, GroupRecord, Priority};
use sqlite::{Alter, Error, Transaction};

// Puts the priority of a group, which has no row where it is 0.
fn put_priority<S: Alter>(tx: &mut Transaction<'_, S>, group: &GroupRecord) -> Result<(), Error>
    ensures { WritesRow S.Store tx.old.conn tx.new.conn result (putting_priority group.now) }
{
    let (device, priority) = (group.device, group.priority);
    if priority == Priority::lowest() {
        remove::<GroupPriority, S>(tx, device.number())
    } else {
        put(tx, &GroupPriority { device, priority })
    }
}

/// Puts a group, in place of one that has a row.
pub fn put_group<S: Alter>(tx: &mut Transaction<'_, S>, group: &GroupRecord) -> Result<(), Error>
    requires { FiguresFitColumns group.now.figures }
    ensures { WritesRow S.Store tx.old.conn tx.new.conn result (putting_group group.now) }
{
    put(tx, &GroupRow::of(group))?;
    put_priority(tx, group)
}

// Puts a further group of an agent that has no row. One that has a row is the store's to refuse.
fn insert_further<S: Alter>(
    tx: &mut Transaction<'_, S>,
    agent: AgentId,
    group: DeviceId,
) -> Result<(), Error>
    ensures { WritesRow S.Store tx.old.conn tx.new.conn result (inserting_further agent group) }
{
    write(
        tx,
        INSERT_AGENT_GROUP,
        &[bind::agent(agent), bind::device(group)],
    )
}

fn insert_all<S: Alter>(
    tx: &mut Transaction<'_, S>,
    agent: AgentId,
    groups: &[DeviceId],
) -> Result<(), Error>
    ensures { WritesRow S.Store tx.old.conn tx.new.conn result (inserting_all agent groups.now) }
{
    for group in groups {
        insert_further(tx, agent, *group)?;
    }
    Ok(())
}

// Takes out the further groups of an agent.
fn drop_further<S: Alter>(tx: &mut Transaction<'_, S>, agent: AgentId) -> Result<(), Error>
    ensures { WritesRow S.Store tx.old.conn tx.new.conn result (dropping_further agent) }
{
    write(tx, DELETE_AGENT_GROUPS, &[bind::agent(agent)])
}

/// Puts an agent, in place of one that has a row, and its further groups in place of those that have rows.
pub fn put_agent<S: Alter>(tx: &mut Transaction<'_, S>, agent: &AgentRecord) -> Result<(), Error>
    requires { Fits agent.now.stamp }
    ensures { WritesRow S.Store tx.old.conn tx.new.conn result (putting_agent agent.now) }
{
    put(tx, &AgentRow::of(agent))?;
    drop_further(tx, agent.agent)?;
    insert_all(tx, agent.agent, agent.groups.further())
}
