//! The switch.

ghost use Rattle.std.specs.Prelude.{◌≡◌, ◌<◌, ◌+◌, ◌-◌, ◌^◌, length, true, nat_le, IfOk, IfErr, OnOk};
ghost use Rattle.acd_terms.specs.Rows.{empty_rows};
ghost use Rattle.acd_terms.specs.Limits.{limits_fit};
ghost use Rattle.acd_terms.specs.Lists.{IsAscending};
ghost use Rattle.acd_model.specs.ServiceAnswers.{outcome_of};
ghost use Rattle.acd_model.specs.Services.Serve.{serve};
ghost use Rattle.acd_model.specs.Step.{step, numbered};
ghost use Rattle.acd_model.specs.Changes.{step_changes};
ghost use Rattle.acd_model.specs.Rules.First.{BreaksNoRule};
ghost use Rattle.acd_model.specs.Rules.Plan.{group_order};
ghost use Rattle.acd_services.specs.NoTick.{IsNoTick};
ghost use Rattle.acd_switch.specs.RowFaults.{IsFaultOf};
ghost use Rattle.acd_switch.specs.Room.{HasRoom, CountersFit, closed};
ghost use Rattle.acd_switch.specs.SwitchAnswers.{figures_at, ChangesNothingIfRefused};
ghost use Rattle.acd_switch.specs.CarriedOutMoves.{CarriesAt, RecordsGrowth};
ghost use Rattle.acd_services.specs.MovesOnTables.{moves_for};
ghost use Rattle.acd_switch.specs.ExecutedRows.{IsMadeBy};
ghost use Rattle.acd_laws.specs.Due.{is_due_by};

use crate::distribution::distribute;
use crate::journal::Journal;
use crate::row_fault::RowFault;
use crate::tick::{is_due, tick};
use acd_model::Change;
use acd_rules::first_broken;
use acd_services::decide;
use acd_tables::Tables;
use acd_terms::{Answer, Command, DeviceId, Event, Figures, Limits, Outcome, Rows, Turn};
use std::alloc::{AllocError, Global};
use std::marker::Model;

/// The switch, seen as its rows.
#[derive(Drop)]
pub struct Switch {
    alloc: Global,
    tables: Tables,
}

/// An executed request.
#[derive(Debug, Drop)]
pub struct Executed {
    pub outcome: Outcome,
    /// Its reports, numbered on from the last event.
    pub events: Vec<Event>,
    /// Its changes, in order. The groups whose figures grow come last, one put for each event that counts.
    pub changes: Vec<Change>,
}

impl Model for Switch {
    ghost use Rattle.acd_terms.specs.declared.rows.Rows.{Rows};

    ghost Value = { Rows };

    ghost view = { λ s. s.tables };
}

impl Switch {
    /// A switch with no plan, no call and no executed request. The caller keeps the limits so that they
    /// fit ([`Limits::fits`]).
    pub fn new(alloc: Global, limits: Limits) -> Self
        ensures empty { result ≡ empty_rows limits }
        ensures kept { limits_fit limits ≡ true → BreaksNoRule result }
    {
        Switch {
            alloc,
            tables: Tables::new(alloc, limits),
        }
    }

    /// A switch of these rows, where they break no rule.
    pub fn from_rows(alloc: Global, rows: &Rows) -> Result<Self, RowFault>
        ensures ok { IfOk result (λ s. s ≡ rows.now) }
        ensures sound { OnOk result (BreaksNoRule rows.now) }
        ensures err { IfErr result (IsFaultOf rows.now) }
    {
        if let Some(rule) = first_broken(alloc, rows) {
            return Err(RowFault::Broken(rule));
        }
        let tables = Tables::from_rows(alloc, rows)?;
        Ok(Switch { alloc, tables })
    }

    /// Executes one request at a moment (in seconds): its outcome and its events. A moment before the last one counts
    /// as the last one. A refused request takes a stamp and a moment, and changes nothing else. After an error of
    /// memory the switch is only to be dropped.
    pub fn step(
        &mut self,
        moment: u32,
        command: &Command,
    ) -> Result<(Outcome, Vec<Event>), AllocError>
        requires rules { BreaksNoRule self.old }
        requires room { self.old.last_stamp < self.old.limits.requests }
        ensures outcome { IfOk result (λ r. r.0 ≡ (step self.old moment command.now).outcome) }
        ensures events { IfOk result (λ r. r.1.items ≡ (step self.old moment command.now).events) }
        ensures rows { OnOk result (self.new ≡ (step self.old moment command.now).rows) }
        ensures kept { OnOk result (BreaksNoRule self.new) }
        ensures refused { IfOk result
            (λ r. ChangesNothingIfRefused r.0 self.old moment command.now) }
    {
        let executed = self.step_with_changes(moment, command)?;
        Ok((executed.outcome, executed.events))
    }

    /// Executes one request as [`Switch::step`] does, and answers its changes too.
    pub fn step_with_changes(
        &mut self,
        moment: u32,
        command: &Command,
    ) -> Result<Executed, AllocError>
        requires rules { BreaksNoRule self.old }
        requires room { self.old.last_stamp < self.old.limits.requests }
        ensures outcome { IfOk result
            (λ r. r.outcome ≡ (step self.old moment command.now).outcome) }
        ensures events { IfOk result
            (λ r. r.events.items ≡ (step self.old moment command.now).events) }
        ensures changes { IfOk result
            (λ r. r.changes.items ≡ step_changes self.old moment command.now) }
        ensures rows { OnOk result (self.new ≡ (step self.old moment command.now).rows) }
        ensures made { IfOk result (λ r. IsMadeBy r self.old moment self.new) }
        ensures kept { OnOk result (BreaksNoRule self.new) }
        ensures refused { IfOk result
            (λ r. ChangesNothingIfRefused r.outcome self.old moment command.now) }
    {
        execute(self.alloc, &mut self.tables, moment, command)
    }

    /// The stamp of the last executed request, 0 before the first one.
    pub fn last_stamp(&self) -> u64
        ensures { result ≡ self.now.last_stamp }
    {
        self.tables.last_stamp()
    }

    /// The moment of the last executed request, in seconds.
    pub fn last_moment(&self) -> u32
        ensures { result ≡ self.now.last_moment }
    {
        self.tables.last_moment()
    }

    /// As many requests were executed as the limit allows: no more may be.
    pub fn is_full(&self) -> bool
        ensures { result ≡ nat_le self.now.limits.requests self.now.last_stamp }
    {
        self.tables.limits().requests <= self.tables.last_stamp()
    }

    /// Whether a tick at the moment would end some offer or after-call work; a moment before the last one counts as the
    /// last one. It looks at the offers that ring and the agents in after-call work, and takes no memory.
    pub fn is_due(&self, moment: u32) -> bool
        ensures { result ≡ is_due_by self.now moment }
    {
        is_due(&self.tables, moment.max(self.tables.last_moment()))
    }

    /// The counts of the group, where it is planned.
    pub fn figures(&self, group: DeviceId) -> Option<Figures>
        ensures { result ≡ figures_at self.now group }
    {
        match self.tables.group(group) {
            None => None,
            Some(group) => Some(group.figures),
        }
    }

    /// The tables, for their look-ups.
    pub fn tables(&self) -> &Tables
        ensures { result.now ≡ self.now }
    {
        &self.tables
    }

    /// The state as lists.
    pub fn rows(&self) -> Result<Rows, AllocError>
        ensures { IfOk result (λ r. r ≡ self.now) }
    {
        self.tables.rows()
    }
}

// Executes one request. After an error the tables are only to be dropped.
fn execute(
    alloc: Global,
    tables: &mut Tables,
    moment: u32,
    command: &Command,
) -> Result<Executed, AllocError>
    requires rules { BreaksNoRule tables.old }
    requires room { tables.old.last_stamp < tables.old.limits.requests }
    ensures outcome { IfOk result (λ r. r.outcome ≡ (step tables.old moment command.now).outcome) }
    ensures events { IfOk result
        (λ r. r.events.items ≡ (step tables.old moment command.now).events) }
    ensures changes { IfOk result
        (λ r. r.changes.items ≡ step_changes tables.old moment command.now) }
    ensures rows { OnOk result (tables.new ≡ (step tables.old moment command.now).rows) }
{
    let moment = moment.max(tables.last_moment());
    let stamp = tables.last_stamp() + 1;
    let at = Turn { moment, stamp };
    let last = tables.last_event();
    let mut journal = Journal::new(alloc)?;
    let outcome = run_command(alloc, tables, at, command, &mut journal)?;
    distribute(tables, moment, &mut journal)?;
    close(tables, at, last, &mut journal)?;
    let Journal { events, changes } = journal;
    Ok(Executed {
        outcome,
        events,
        changes,
    })
}

// Counts the events in the figures, numbers them on from the last one, and sets the counters.
fn close(tables: &mut Tables, at: Turn, last: u64, journal: &mut Journal) -> Result<(), AllocError>
    requires order { IsAscending group_order tables.old.groups }
    requires room { CountersFit (closed tables.old at last journal.old.events.items) }
    ensures rows { OnOk result (tables.new ≡ closed tables.old at last journal.old.events.items) }
    ensures events { OnOk result
        (journal.new.events.items ≡ numbered last journal.old.events.items) }
    ensures changes { RecordsGrowth result tables.old journal.old journal.new }
{
    journal.grow(tables)?;
    let count = journal.events.len() as u64;
    number(&mut journal.events, last);
    tables.set_last(at.stamp, at.moment, last + count);
    Ok(())
}

// The service, or tick.
fn run_command(
    alloc: Global,
    tables: &mut Tables,
    at: Turn,
    command: &Command,
    journal: &mut Journal,
) -> Result<Outcome, AllocError>
    requires { HasRoom tables.old }
    ensures outcome { IfOk result
        (λ o. o ≡ outcome_of (serve tables.old at command.now)) }
    ensures carried { OnOk result
        (CarriesAt at (moves_for command.now) tables journal) }
{
    match command {
        Command::Tick => {
            tick(alloc, tables, at, journal)?;
            Ok(Outcome::Done(Answer::Nothing))
        }
        _ => run_service(tables, at, command, journal),
    }
}

fn run_service(
    tables: &mut Tables,
    at: Turn,
    command: &Command,
    journal: &mut Journal,
) -> Result<Outcome, AllocError>
    requires room { HasRoom tables.old }
    requires no_tick { IsNoTick command.now }
    ensures outcome { IfOk result
        (λ o. o ≡ outcome_of (serve tables.old at command.now)) }
    ensures carried { OnOk result
        (CarriesAt at (moves_for command.now) tables journal) }
{
    let served = decide(tables, at, command);
    match &served {
        Err(refusal) => Ok(Outcome::Refused(*refusal)),
        Ok(done) => {
            journal.make_all(tables, at.moment, done.moves.as_slice())?;
            Ok(Outcome::Done(done.answer))
        }
    }
}

// Numbers the events on from the last one.
fn number(events: &mut [Event], last: u64)
    requires { last + length events.old < 2 ^ 64 }
    ensures { events.new ≡ numbered last events.old }
{
    for i in 0..events.len() {
        events[i].number = last + 1 + i as u64;
    }
}
