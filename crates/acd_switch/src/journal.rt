//! The journal of a step: what it does to the tables, with the events and the changes recorded.

ghost use Rattle.std.specs.Prelude.{◌≡◌, ◌∷◌, [], IfOk, OnOk};
ghost use Rattle.acd_terms.specs.Lists.{IsAscending};
ghost use Rattle.acd_model.specs.Moves.{changed};
ghost use Rattle.acd_model.specs.Changes.{with_change, changed_by, growth_by, growth};
ghost use Rattle.acd_model.specs.Figures.{with_figures};
ghost use Rattle.acd_model.specs.Rules.Plan.{group_order};
ghost use Rattle.acd_switch.specs.FigureSums.{CountingFits};
ghost use Rattle.acd_switch.specs.CarriedOutMoves.{Carries, RecordsGrowth};
ghost use Rattle.acd_services.specs.MovesOnTables.{ExtendsList};

use crate::figures::{counted_group, counting};
use acd_model::{Change, Move};
use acd_services::change;
use acd_tables::Tables;
use acd_terms::Event;
use std::alloc::{AllocError, Global};
use std::slice;

// Few steps make more events or changes, so most journals never grow.
const ROOM: usize = 6;

/// The events and the changes of a step, in order. The numbers of the events are 0.
#[derive(Debug, Drop)]
pub struct Journal {
    pub events: Vec<Event>,
    pub changes: Vec<Change>,
}

impl Journal {
    pub fn new(alloc: Global) -> Result<Journal, AllocError>
        ensures events { IfOk result (λ j. j.events.items ≡ []) }
        ensures changes { IfOk result (λ j. j.changes.items ≡ []) }
    {
        Ok(Journal {
            events: Vec::with_capacity(alloc, ROOM)?,
            changes: Vec::with_capacity(alloc, ROOM)?,
        })
    }

    /// Makes the moves in order. After an error tables and journal are only to be dropped.
    pub fn make_all(
        &mut self,
        tables: &mut Tables,
        moment: u32,
        moves: &[Move],
    ) -> Result<(), AllocError>
        ensures { OnOk result (Carries moment moves.now tables self) }
    {
        for one in moves {
            self.make(tables, moment, one)?;
        }
        Ok(())
    }

    // Makes one move.
    fn make(&mut self, tables: &mut Tables, moment: u32, one: &Move) -> Result<(), AllocError>
        ensures { OnOk result (Carries moment (one.now ∷ []) tables self) }
    {
        make_change(tables, &one.change, &mut self.changes)?;
        if let Some(report) = one.report {
            self.events.push(Event {
                number: 0,
                moment,
                report,
            })?;
        }
        Ok(())
    }

    /// The figures of the groups grow by the events. After an error tables and journal are only to be
    /// dropped.
    pub fn grow(&mut self, tables: &mut Tables) -> Result<(), AllocError>
        requires order { IsAscending group_order tables.old.groups }
        requires room { CountingFits tables.old self.old.events.items }
        ensures rows { OnOk result (tables.new ≡ with_figures tables.old self.old.events.items) }
        ensures events { self.new.events.items ≡ self.old.events.items }
        ensures changes { RecordsGrowth result tables.old self.old self.new }
    {
        grow_by_all(tables, &self.events, &mut self.changes)
    }
}

// Makes a change, and records it. Nothing else records changes.
fn make_change(
    tables: &mut Tables,
    one: &Change,
    changes: &mut Vec<Change>,
) -> Result<(), AllocError>
    ensures rows { OnOk result (tables.new ≡ changed tables.old one.now) }
    ensures changes { ExtendsList result changes.old changes.new (with_change one.now []) }
{
    if let Change::Nothing = one {
        return Ok(());
    }
    change(tables, one)?;
    append(slice::from_ref(one), changes)
}

// A separate addition, for any type. As a list, a change is copied into its place at once, and not by way of the stack.
fn append<T: Copy + Drop>(more: &[T], list: &mut Vec<T>) -> Result<(), AllocError>
    ensures { ExtendsList result list.old list.new more.now }
{
    list.extend_from_slice(more)
}

// The group that the event counts for grows, where there is one.
fn grow_by(tables: &mut Tables, event: &Event, changes: &mut Vec<Change>) -> Result<(), AllocError>
    requires { CountingFits tables.old (event.now ∷ []) }
    ensures rows { OnOk result
        (tables.new ≡ changed_by tables.old (growth_by tables.old event.now)) }
    ensures changes { ExtendsList result changes.old changes.new (growth_by tables.old event.now) }
{
    let Some(device) = counted_group(&event.report) else {
        return Ok(());
    };
    let Some(group) = tables.group(device) else {
        return Ok(());
    };
    make_change(tables, &Change::PutGroup(counting(group, event)), changes)
}

fn grow_by_all(
    tables: &mut Tables,
    events: &[Event],
    changes: &mut Vec<Change>,
) -> Result<(), AllocError>
    requires order { IsAscending group_order tables.old.groups }
    requires room { CountingFits tables.old events.now }
    ensures rows { OnOk result (tables.new ≡ with_figures tables.old events.now) }
    ensures changes { ExtendsList result changes.old changes.new (growth tables.old events.now) }
{
    for event in events {
        grow_by(tables, event, changes)?;
    }
    Ok(())
}
