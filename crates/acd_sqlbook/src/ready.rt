//! A connection that may have failed before. Its store is tried first where it isn't known to work, since a failure may
//! have shut it.

ghost use Rattle.std.specs.Prelude.{◌≡◌, ◌↔◌, false, None, Some, IsTrue, IfOk, OnOk, OnErr};
ghost use Rattle.sqlite.specs.State.{HasCleanDisk};
ghost use Rattle.sqlite.specs.Held.{state};
ghost use Rattle.acd_book.specs.Content.{events_page, kept_under, records_page};
ghost use Rattle.acd_sqlbook.specs.Commit.{KeptFits, meta_after, counters_of};
ghost use Rattle.acd_sqlbook.specs.Counters.{StopsOn};
ghost use Rattle.acd_sql_columns.specs.Relations.{meta_of};
ghost use Rattle.acd_sql_columns.specs.Transactions.{Quiet, NoStop, LimitsFit, MetaFits};
ghost use Rattle.acd_sql_schema.specs.Creation.{IfClean};
ghost use Rattle.acd_sql_statements.specs.ReadsBetween.{IsUp};
ghost use Rattle.acd_sqlbook.specs.CommitStops.{AreUncounted, IsUncounted, StopsCommit};

use crate::commit::{commit_all, counted, kept_fits};
use acd_book::Kept;
use acd_codec::request_text;
use acd_model::Change;
use acd_sql_columns::Meta;
use acd_sql_statements::fitting::{fits, too_large};
use acd_sql_statements::read::probe;
use acd_sql_statements::{events_after, kept_under, read_meta, records_after, rows};
use acd_terms::{Event, Invoke, Limits, Requester, Rows};
use sqlite::{Alter, Connection, Error};
use std::alloc::Global;

/// A connection between transactions, without a limit of steps.
#[derive(Drop)]
pub(crate) struct Ready<S: Alter> {
    pub(crate) conn: Connection<S>,
    // Whether the last call succeeded, so that the store still works. While a call runs it isn't known.
    pub(crate) known_open: bool,
    ghost idle: { conn.in_transaction ≡ false },
    ghost unlimited: { conn.step_limit ≡ None },
    ghost open_if_clean: { IsTrue known_open → HasCleanDisk (state S.Store conn)
        → IsTrue (state S.Store conn).is_open },
}

/// Whether each limit fits its column.
pub(crate) fn limits_fit(limits: &Limits) -> bool
    ensures { IsTrue result ↔ LimitsFit limits.now }
{
    fits(limits.requests)
        && fits(limits.calls)
        && fits(limits.groups)
        && fits(limits.stations)
        && fits(limits.agents)
        && fits(limits.monitors)
}

pub(crate) fn meta_fits(meta: &Meta) -> bool
    ensures { IsTrue result ↔ MetaFits meta.now }
{
    limits_fit(&meta.limits)
        && fits(meta.last_stamp)
        && fits(meta.last_call)
        && fits(meta.last_monitor)
        && fits(meta.last_event)
}

// The counters after a commit of so many events, where their columns can hold them.
fn next_meta(meta: &Meta, changes: &[Change], events: u64, kept: &Kept) -> Result<Meta, Error>
    ensures is { IfOk result (λ next. next ≡ meta_after meta.now changes.now events kept.now) }
    ensures fits { IfOk result (λ next. MetaFits next) }
    ensures kept { OnOk result (KeptFits kept.now) }
    ensures unfit { OnErr result (AreUncounted meta.now changes.now events kept.now) }
{
    match counted(meta, changes, events, kept) {
        Some(next) if meta_fits(&next) && kept_fits(kept) => Ok(next),
        _ => Err(too_large()),
    }
}

// What is held after a commit that wrote these counters.
fn held_after(done: &Result<(), Error>, meta: Meta) -> Option<Meta>
    ensures ok { OnOk done.now (result ≡ Some meta) }
    ensures err { OnErr done.now (result ≡ None) }
{
    match done {
        Ok(()) => Some(meta),
        Err(_) => None,
    }
}

impl<S: Alter> Ready<S> {
    ghost use Rattle.acd_sqlbook.specs.OverReady.{ReadyFinds, ReadyLists, ReadyCounts, ReadyCommits, HoldsCounters, commit_on, ReadyFails, ReadyStops, ReadyFailsOr};

    /// Tries the store where it isn't known to work, as it isn't from here on until a call has succeeded.
    pub(crate) fn refresh(&mut self) -> Result<(), Error>
        ensures doubted { self.new.known_open ≡ false }
        ensures up { IsUp (state S.Store self.new.conn) result }
        ensures quiet { Quiet (state S.Store self.old.conn) (state S.Store self.new.conn) }
        ensures stops { IfClean S.Store self.old.conn self.new.conn NoStop }
        ensures cause { ReadyFails self result }
    {
        if self.known_open {
            self.known_open = false;
            return Ok(());
        }
        probe(&mut self.conn)
    }

    // The limits and the counters: those that are held or, where none are, those of the database.
    fn meta(&mut self, held: Option<Meta>) -> Result<Meta, Error>
        ensures read { ReadyCounts self held result (λ c. meta_of c.rows) }
        ensures cause { ReadyFails self result }
    {
        self.refresh()?;
        match held {
            Some(meta) => Ok(meta),
            None => read_meta(&mut self.conn),
        }
    }

    /// The limits.
    pub(crate) fn limits(&mut self) -> Result<Limits, Error>
        ensures read { ReadyFinds self result (λ c. c.rows.limits) }
        ensures cause { ReadyFails self result }
    {
        let meta = self.meta(None)?;
        Ok(meta.limits)
    }

    /// The limits, the tables and the counters.
    pub(crate) fn rows(&mut self, alloc: Global) -> Result<Rows, Error>
        ensures read { ReadyFinds self result (λ c. c.rows) }
        ensures cause { ReadyFails self result }
    {
        self.refresh()?;
        rows(alloc, &mut self.conn)
    }

    /// The record kept under a key.
    pub(crate) fn kept(
        &mut self,
        alloc: Global,
        requester: &Requester,
        invoke: Invoke,
    ) -> Result<Option<Kept>, Error>
        ensures read { ReadyFinds self result (kept_under requester.now invoke) }
        ensures cause { ReadyFails self result }
    {
        self.refresh()?;
        kept_under(alloc, &mut self.conn, requester, invoke)
    }

    /// The first kept records above a stamp.
    pub(crate) fn records_after(
        &mut self,
        alloc: Global,
        stamp: u64,
        limit: usize,
    ) -> Result<Vec<Kept>, Error>
        ensures read { ReadyLists self result (records_page stamp limit) }
        ensures cause { ReadyFails self result }
    {
        self.refresh()?;
        records_after(alloc, &mut self.conn, stamp, limit)
    }

    /// The first events above a number.
    pub(crate) fn events_after(
        &mut self,
        alloc: Global,
        number: u64,
        limit: usize,
    ) -> Result<Vec<Event>, Error>
        ensures read { ReadyLists self result (events_page number limit) }
        ensures cause { ReadyFails self result }
    {
        self.refresh()?;
        events_after(alloc, &mut self.conn, number, limit)
    }

    // The last call's number, and the counters that a commit writes.
    fn counters(
        &mut self,
        held: Option<Meta>,
        changes: &[Change],
        events: u64,
        kept: &Kept,
    ) -> Result<(u64, Meta), Error>
        ensures read { ReadyCounts self held result (counters_of changes.now events kept.now) }
        ensures fits { IfOk result (λ found. MetaFits found.1) }
        ensures kept { OnOk result (KeptFits kept.now) }
        ensures cause { ReadyFailsOr self result
            (StopsOn held (IsUncounted changes.now events kept.now)) }
    {
        let meta = self.meta(held)?;
        let next = next_meta(&meta, changes, events, kept)?;
        Ok((meta.last_call, next))
    }

    /// Commits the changes, the events and the kept record, all or none. It counts from what is held, or reads that
    /// where nothing is held; after it the new counters are held or, where it failed, nothing.
    pub(crate) fn commit_changes(
        &mut self,
        alloc: Global,
        counters: &mut Option<Meta>,
        changes: &[Change],
        events: &[Event],
        kept: &Kept,
    ) -> Result<(), Error>
        ensures commits { ReadyCommits self result (commit_on counters changes events kept) }
        ensures counted { HoldsCounters self result counters.new
            (commit_on counters changes events kept) }
        ensures forgotten { OnErr result (counters.new ≡ None) }
        ensures cause { ReadyStops self result (StopsCommit counters changes events kept) }
    {
        let held = counters.take();
        let request = request_text(alloc, &kept.request)?;
        match self.counters(held, changes, events.len() as u64, kept) {
            Ok((last, meta)) => {
                self.known_open = false;
                let conn = &mut self.conn;
                let last = Some(last);
                let done = commit_all(conn, last, changes, events, kept, request.as_str(), &meta);
                *counters = held_after(&done, meta);
                done
            }
            Err(error) => Err(error),
        }
    }
}
