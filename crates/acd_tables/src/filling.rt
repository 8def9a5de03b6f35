//! Tables filled from rows.

ghost use Rattle.std.specs.Prelude.{◌≡◌, [], true, OnOk};
ghost use Rattle.acd_terms.specs.Lists.{ascends};
ghost use Rattle.acd_model.specs.Rules.Plan.{group_order, agent_order, connection_order};
ghost use Rattle.acd_tables.specs.IndexedRows.{with_indexed};

use crate::tables::Tables;
use acd_terms::{AgentRecord, ConnectionRecord, GroupRecord, Rows, ascends};
use std::alloc::AllocError;

impl Tables {
    /// Puts the records of these rows that have indexes into tables that have none. Lists that aren't in strictly
    /// ascending key are refused as if there were no memory.
    pub(crate) fn put_indexed(&mut self, rows: &Rows) -> Result<(), AllocError>
        requires groups { self.old.groups ≡ [] }
        requires agents { self.old.agents ≡ [] }
        requires connections { self.old.connections ≡ [] }
        ensures { OnOk result (self.new ≡ with_indexed self.old rows.now) }
    {
        if !(ascends(rows.groups.as_slice())
            && ascends(rows.agents.as_slice())
            && ascends(rows.connections.as_slice()))
        {
            return Err(AllocError);
        }
        self.put_groups(rows.groups.as_slice())?;
        self.put_agents(rows.agents.as_slice())?;
        self.put_connections(rows.connections.as_slice())
    }

    /// Puts the groups into tables that have none.
    #[tactic(auto, unfolding(acd_model::specs::Writes::with_group))]
    pub(crate) fn put_groups(&mut self, groups: &[GroupRecord]) -> Result<(), AllocError>
        requires none { self.old.groups ≡ [] }
        requires order { ascends group_order groups.now ≡ true }
        ensures { OnOk result (self.new ≡ record self.old { groups = groups.now }) }
    {
        for group in groups {
            self.put_group(*group)?;
        }
        Ok(())
    }

    /// Puts the agents into tables that have none.
    #[tactic(auto, unfolding(acd_model::specs::Writes::with_agent))]
    pub(crate) fn put_agents(&mut self, agents: &[AgentRecord]) -> Result<(), AllocError>
        requires none { self.old.agents ≡ [] }
        requires order { ascends agent_order agents.now ≡ true }
        ensures { OnOk result (self.new ≡ record self.old { agents = agents.now }) }
    {
        for agent in agents {
            self.put_agent(*agent)?;
        }
        Ok(())
    }

    /// Puts the connections into tables that have none.
    #[tactic(auto, unfolding(acd_model::specs::Writes::with_connection))]
    pub(crate) fn put_connections(
        &mut self,
        connections: &[ConnectionRecord],
    ) -> Result<(), AllocError>
        requires none { self.old.connections ≡ [] }
        requires order { ascends connection_order connections.now ≡ true }
        ensures { OnOk result (self.new ≡ record self.old { connections = connections.now }) }
    {
        for connection in connections {
            self.put_connection(*connection)?;
        }
        Ok(())
    }
}
