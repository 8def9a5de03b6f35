//! A book over a connection.

ghost use Rattle.std.specs.Prelude.{◌≡◌, ◌≤◌, false, Err, is_ok, IsTrue, IfOk, IfErr};
ghost use Rattle.acd_sql_columns.specs.Transactions.{LimitsFit};
ghost use Rattle.acd_sqlbook.specs.Calls.{IsUnlimited, WasClean};
ghost use Rattle.acd_sqlbook.specs.State.{error_fault, book_result, failures_after};
ghost use Rattle.acd_sqlbook.specs.Caches.{IsBlank};
ghost use Rattle.acd_sqlbook.specs.Opening.{HasCreateCause, HasNoTables, IfHandedBack, IsNewOver};
ghost use Rattle.acd_sqlbook.specs.View.{book_seen, SqlReads, SqlFinds, SqlLists, SqlCommits};
ghost use Rattle.acd_sql_schema.specs.Creation.{MayMake};
ghost use Rattle.acd_sqlbook.specs.Causes.{IsCaused, IsCausedIfSound, read as reading, change as changing, prune as pruning, replace as replacing};
ghost use Rattle.acd_book.specs.Content.{IsNextKept, events_page, kept_under, monitor_page, records_page, commit_by, commit_of};
ghost use Rattle.acd_book.specs.PrunedContent.{prune_by};

use crate::cache::Cache;
use crate::following::kept_followed;
use crate::index::index_after;
use crate::page::page_followed;
use crate::prune::prune_ready;
use crate::ready::{Ready, limits_fit};
use crate::transition::commit_rows;
use acd_book::{Book, BookFault, Kept};
use acd_model::Change;
use acd_sql_schema::{has_no_tables, set_up};
use acd_terms::{Event, Invoke, Limits, Requester, Rows};
use sqlite::{Alter, Connection, Error, ErrorCode};
use std::alloc::Global;
use std::marker::Model;
use std::mem;

/// A book in a database. Its tables are those of version 2.
#[derive(Drop)]
pub struct SqlBook<S: Alter> {
    pub(crate) alloc: Global,
    pub(crate) ready: Ready<S>,
    pub(crate) failures: u64,
    pub(crate) cache: Cache,
}

impl<S: Alter> Model for SqlBook<S> {
    ghost use Rattle.acd_sqlbook.specs.View.{BookView, view_code};

    ghost Value = { BookView S };

    ghost coded = { view_code S.code };

    ghost view = { λ b. record {
      conn = b.ready.conn;
      failures = b.failures;
      cache = b.cache;
    } };
}

// Want of memory is no failure of the store.
fn fault_of(error: Error) -> BookFault
    ensures { result ≡ error_fault error }
{
    match error {
        Error::SqliteFailure(ErrorCode::OutOfMemory) => BookFault::NoMemory,
        _ => BookFault::Store,
    }
}

// The answer of a call, whose failure is counted, and whether the store still works.
fn recorded<T>(
    found: Result<T, Error>,
    known_open: &mut bool,
    failures: &mut u64,
) -> Result<T, BookFault>
    ensures answer { result ≡ book_result found }
    ensures known_open { known_open.new ≡ is_ok found }
    ensures failures { failures.new ≡ failures_after result failures.old }
    ensures counts { failures.old ≤ failures.new }
{
    match found {
        Ok(found) => {
            *known_open = true;
            Ok(found)
        }
        Err(error) => {
            *known_open = false;
            let fault = fault_of(error);
            if fault == BookFault::Store {
                *failures = failures.saturating_add(1);
            }
            Err(fault)
        }
    }
}

impl<S: Alter> SqlBook<S> {
    /// Makes the tables of a new book, in one transaction.
    ///
    /// Limits that no INTEGER column can hold, and a database that has any table, index or view, are
    /// [`BookFault::Store`]: the connection is handed back as it was. With any other fault it is handed back without a
    /// limit of steps: one that was set is removed before anything is made, and a connection doesn't say which it was.
    pub fn create(
        alloc: Global,
        mut conn: Connection<S>,
        limits: Limits,
    ) -> Result<SqlBook<S>, (BookFault, Connection<S>)>
        requires { conn.in_transaction ≡ false }
        ensures made { IfOk result (IsNewOver S.Store limits) }
        ensures counted { IfOk result (λ b. b.failures ≡ 0) }
        ensures blank { IfOk result (λ b. IsBlank b.cache) }
        ensures unlimited { IfOk result (λ b. IsUnlimited b.conn) }
        ensures clean { IfOk result (λ b. WasClean S.Store conn b.conn) }
        ensures refused { ¬ (LimitsFit limits) → result ≡ Err (BookFault.Store, conn) }
        ensures occupied { ¬ (HasNoTables S.Store conn) → result ≡ Err (BookFault.Store, conn) }
        ensures handed_back { IfErr result (λ e. e.1.in_transaction ≡ false) }
        ensures limit { LimitsFit limits → HasNoTables S.Store conn
            → IfErr result (λ e. IsUnlimited e.1) }
        ensures doubted { IfErr result (λ e. WasClean S.Store conn e.1) }
        ensures stops { IfHandedBack S.Store conn result (λ fault old new. MayMake old new limits) }
        ensures caused { IfHandedBack S.Store conn result (HasCreateCause limits) }
    {
        if !limits_fit(&limits) {
            return Err((BookFault::Store, conn));
        }
        if !has_no_tables(conn.schema()) {
            return Err((BookFault::Store, conn));
        }
        conn.set_step_limit(None);
        match set_up(&mut conn, limits) {
            Ok(()) => Ok(SqlBook {
                alloc,
                ready: Ready {
                    conn,
                    known_open: true,
                },
                failures: 0,
                cache: Cache::blank(alloc),
            }),
            Err(error) => Err((fault_of(error), conn)),
        }
    }

    /// Takes out the kept records up to a stamp and the events up to a number, all or none. Rows and counters stay.
    ///
    /// A stamp or a number that no INTEGER column can hold is [`BookFault::Store`].
    pub fn prune(&mut self, stamp: u64, number: u64) -> Result<(), BookFault>
        ensures commits { SqlCommits S.Store self result (prune_by stamp number) }
        ensures caused { IsCaused (pruning stamp number) S.Store self result }
    {
        self.cache.forget();
        let done = prune_ready(&mut self.ready, stamp, number);
        recorded(done, &mut self.ready.known_open, &mut self.failures)
    }

    /// Gives the connection up. It takes no memory.
    pub fn into_connection(self) -> Connection<S>
        ensures idle { result.in_transaction ≡ false }
        ensures unlimited { IsUnlimited result }
        ensures same { result ≡ self.conn }
    {
        let SqlBook {
            alloc: _,
            ready,
            failures: _,
            cache: _,
        } = self;
        let Ready {
            conn,
            known_open: _,
        } = ready;
        conn
    }
}

impl<S: Alter> Book for SqlBook<S> {
    ghost use Rattle.std.specs.Prelude.{refl};
    ghost use Rattle.std.proofs.Common.{ap, ◌∙◌};
    ghost use Rattle.std.proofs.Math.Logic.{∥∥₁_map};
    ghost use Rattle.acd_sql_columns.specs.InTables.{content_of};

    ghost state = { λ b. book_seen S.Store b };

    ghost settled = { λ b c clean sound up stop. stop.2 ∙ ap content_of
        (S.settled b.conn.store stop.0 up stop.1) };

    ghost stays = { λ b clean sound up. (
      (S.view b.conn.store).committed,
      S.stays b.conn.store up,
      refl,
    ) };

    ghost stands = { λ b clean sound. ∥∥₁_map (S.survives b.conn.store clean)
        (λ found. (content_of found.0, (found.0, found.1, refl))) };

    fn failures(&self) -> u64 {
        self.failures
    }

    fn limits(&mut self) -> Result<Limits, BookFault>
        ensures reads { SqlFinds S.Store self result (λ c. c.rows.limits) }
        ensures caused { IsCaused reading S.Store self result }
    {
        let found = self.ready.limits();
        recorded(found, &mut self.ready.known_open, &mut self.failures)
    }

    fn rows(&mut self) -> Result<Rows, BookFault>
        ensures reads { SqlFinds S.Store self result (λ c. c.rows) }
        ensures caused { IsCaused reading S.Store self result }
    {
        let found = self.ready.rows(self.alloc);
        recorded(found, &mut self.ready.known_open, &mut self.failures)
    }

    fn kept(&mut self, requester: &Requester, invoke: Invoke) -> Result<Option<Kept>, BookFault>
        ensures reads { SqlFinds S.Store self result (kept_under requester.now invoke) }
        ensures caused { IsCaused reading S.Store self result }
    {
        let found = self.ready.kept(self.alloc, requester, invoke);
        recorded(found, &mut self.ready.known_open, &mut self.failures)
    }

    fn kept_after(&mut self, stamp: u64) -> Result<Option<Kept>, BookFault>
        ensures reads { SqlReads S.Store self result (IsNextKept stamp) }
        ensures caused { IsCaused reading S.Store self result }
    {
        let found = kept_followed(self.alloc, &mut self.ready, &mut self.cache.ahead, stamp);
        recorded(found, &mut self.ready.known_open, &mut self.failures)
    }

    fn requests_after(&mut self, stamp: u64, limit: usize) -> Result<Vec<Kept>, BookFault>
        ensures reads { SqlLists S.Store self result (records_page stamp limit) }
        ensures caused { IsCaused reading S.Store self result }
    {
        let found = self.ready.records_after(self.alloc, stamp, limit);
        recorded(found, &mut self.ready.known_open, &mut self.failures)
    }

    fn events_after(&mut self, number: u64, limit: usize) -> Result<Vec<Event>, BookFault>
        ensures reads { SqlLists S.Store self result (events_page number limit) }
        ensures caused { IsCaused reading S.Store self result }
    {
        let found = self.ready.events_after(self.alloc, number, limit);
        recorded(found, &mut self.ready.known_open, &mut self.failures)
    }

    fn events_of_monitor(
        &mut self,
        monitor: u64,
        number: u64,
        limit: usize,
    ) -> Result<Vec<Event>, BookFault>
        ensures reads { SqlLists S.Store self result (monitor_page monitor number limit) }
        ensures caused { IsCaused reading S.Store self result }
    {
        let found = page_followed(
            self.alloc,
            &mut self.ready,
            &mut self.cache.index,
            monitor,
            number,
            limit,
        );
        recorded(found, &mut self.ready.known_open, &mut self.failures)
    }

    fn commit(&mut self, rows: &Rows, events: &[Event], kept: &Kept) -> Result<(), BookFault>
        ensures commits { SqlCommits S.Store self result (commit_of rows.now events.now kept.now) }
        ensures caused { IsCaused (replacing rows.now events.now kept.now) S.Store self result }
    {
        self.cache.forget();
        let done = commit_rows(self.alloc, &mut self.ready, rows, events, kept);
        recorded(done, &mut self.ready.known_open, &mut self.failures)
    }

    fn commit_changes(
        &mut self,
        changes: &[Change],
        events: &[Event],
        kept: &Kept,
    ) -> Result<(), BookFault>
        ensures commits { SqlCommits S.Store self result
            (commit_by changes.now events.now kept.now) }
        // It counts from what is remembered: so the book is sound with what it remembers, as `commits` asks too. A new
        // or an adopted one is, and each call leaves it so.
        ensures caused { IsCausedIfSound (changing changes.now events.now kept.now)
            S.Store self result }
    {
        let counters = &mut self.cache.counters;
        let done = self
            .ready
            .commit_changes(self.alloc, counters, changes, events, kept);
        let before = mem::take(&mut self.cache.index);
        self.cache.index = index_after(before, &done, changes, events);
        self.cache.ahead.forget();
        recorded(done, &mut self.ready.known_open, &mut self.failures)
    }
}
