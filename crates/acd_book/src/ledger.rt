//! The tables of a book in memory.

ghost use Rattle.std.specs.Prelude.{◌≡◌, ◌+◌, ◌<◌, ◌≤◌, ◌^◌, length, vec_len, nat_lt, vec_capacity, IfOk, OnOk};
ghost use Rattle.acd_terms.specs.Rows.{empty_rows};
ghost use Rattle.acd_model.specs.Changes.{rows_made};
ghost use Rattle.acd_model.specs.Scans.{monitor_of};

use acd_model::Change;
use acd_tables::Records;
use acd_terms::{Limits, MonitorRecord, Rows};
use std::alloc::{AllocError, Global};

// So many changes wait before they are made together: for fewer, the rows that they change would no longer be in the
// nearest caches, and more wouldn't fit there.
const LONG: usize = 256;

/// The tables, and a journal of changes that wait to be made in them. The content is the tables with those changes
/// made. A change that finds no memory stays in the journal, and is tried again later; where as many wait as are made
/// together, no more are accepted.
#[derive(Drop)]
pub(crate) struct Ledger {
    pub(crate) alloc: Global,
    pub(crate) records: Records,
    pub(crate) journal: Vec<Change>,
    // How many of the journal are made.
    pub(crate) made: usize,
    ghost within: { made ≤ vec_len journal },
}

impl Ledger {
    ghost use Rattle.acd_book.specs.Ledger.{ledger_rows};

    pub(crate) fn new(alloc: Global, limits: Limits) -> Ledger
        ensures rows { ledger_rows result ≡ empty_rows limits }
        ensures none_wait { vec_len result.journal ≡ 0 }
    {
        Ledger {
            alloc,
            records: Records::new(alloc, limits),
            journal: Vec::new(alloc),
            made: 0,
        }
    }

    pub(crate) fn from_rows(alloc: Global, rows: &Rows) -> Result<Ledger, AllocError>
        ensures rows { IfOk result (λ ledger. ledger_rows ledger ≡ rows.now) }
        ensures none_wait { IfOk result (λ ledger. vec_len ledger.journal ≡ 0) }
    {
        Ok(Ledger {
            alloc,
            records: Records::from_rows(alloc, rows)?,
            journal: Vec::new(alloc),
            made: 0,
        })
    }

    pub(crate) fn limits(&self) -> Limits
        ensures { result ≡ (ledger_rows self.now).limits }
    {
        self.records.limits()
    }

    /// It can count so many more events.
    pub(crate) fn counts(&self, events: u64) -> bool
        ensures { result ≡ nat_lt ((ledger_rows self.now).last_event + events) (2 ^ 64) }
    {
        self.records.last_event().checked_add(events).is_some()
    }

    /// All of it, once no change waits.
    pub(crate) fn rows(&mut self) -> Result<Rows, AllocError>
        ensures ok { IfOk result (λ rows. rows ≡ ledger_rows self.old) }
        ensures same { ledger_rows self.new ≡ ledger_rows self.old }
        ensures no_longer { vec_len self.new.journal ≤ vec_len self.old.journal }
    {
        self.settle();
        if self.made < self.journal.len() {
            return Err(AllocError);
        }
        self.records.rows(self.alloc)
    }

    /// The record of a running monitor, once no change waits.
    pub(crate) fn monitor(&mut self, monitor: u64) -> Result<Option<MonitorRecord>, AllocError>
        ensures ok { IfOk result (λ found. found ≡ monitor_of (ledger_rows self.old) monitor) }
        ensures same { ledger_rows self.new ≡ ledger_rows self.old }
        ensures no_longer { vec_len self.new.journal ≤ vec_len self.old.journal }
    {
        self.settle();
        if self.made < self.journal.len() {
            return Err(AllocError);
        }
        Ok(self.records.monitor(monitor))
    }

    /// Makes the changes that wait, as far as there is memory.
    pub(crate) fn settle(&mut self)
        ensures same { ledger_rows self.new ≡ ledger_rows self.old }
        ensures no_longer { vec_len self.new.journal ≤ vec_len self.old.journal }
    {
        while self.made < self.journal.len() {
            if self.records.change(&self.journal[self.made]).is_err() {
                return;
            }
            self.made += 1;
        }
        self.journal.clear();
        self.made = 0;
    }

    /// Makes the changes that wait, where they are many.
    pub(crate) fn settle_many(&mut self)
        ensures same { ledger_rows self.new ≡ ledger_rows self.old }
        ensures no_longer { vec_len self.new.journal ≤ vec_len self.old.journal }
    {
        if self.journal.len() >= LONG {
            self.settle();
        }
    }

    /// Takes room for so many more changes, once few wait.
    pub(crate) fn reserve(&mut self, changes: usize) -> Result<(), AllocError>
        ensures same { ledger_rows self.new ≡ ledger_rows self.old }
        ensures few { OnOk result (vec_len self.new.journal < 256) }
        ensures room { OnOk result
            (vec_len self.new.journal + changes ≤ vec_capacity self.new.journal) }
        ensures no_longer { vec_len self.new.journal ≤ vec_len self.old.journal }
    {
        self.settle_many();
        if self.journal.len() >= LONG {
            return Err(AllocError);
        }
        self.journal.reserve(changes)
    }

    /// Adds changes, for which there is room, and the counters of an executed request.
    pub(crate) fn append(&mut self, changes: &[Change], stamp: u64, moment: u32, events: u64)
        requires room { vec_len self.old.journal + length changes.now
            ≤ vec_capacity self.old.journal }
        requires countable { (ledger_rows self.old).last_event + events < 2 ^ 64 }
        ensures made { ledger_rows self.new
            ≡ rows_made (ledger_rows self.old) changes.now stamp moment events }
        ensures added { vec_len self.new.journal ≤ vec_len self.old.journal + length changes.now }
    {
        let last_event = self.records.last_event() + events;
        self.records.set_last(stamp, moment, last_event);
        let _ = self.journal.extend_from_slice(changes);
    }
}
