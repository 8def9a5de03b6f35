//! A book that fails at some of its calls.

ghost use Rattle.std.specs.Prelude.{◌≡◌, ◌≤◌, ⊤, refl, IsErrOf};
ghost use Rattle.acd_book.specs.Content.{HasRisen};

use acd_book::{Book, BookFault, Kept, MemoryBook};
use acd_model::Change;
use acd_terms::{Event, Invoke, Limits, Requester, Rows};
use std::alloc::Global;
use std::process::Abort;

/// What a test asks its book, without the clauses of any.
pub trait Summed {
    /// Its content, and what it has counted.
    fn summary(&mut self, rt: &impl Abort, alloc: Global) -> String;
}

/// A book in memory that does nothing at some of its calls but to fail. A text lists these, each as `NUMBER:FAULT`, from
/// 1; counted are the calls that read the rows or a key, or commit changes.
#[derive(Drop)]
pub struct FailingBook {
    inner: MemoryBook,
    said: &'static str,
    calls: u32,
    row_reads: u32,
    failures: u64,
}

// The fault that is said of a call.
fn fault_at(said: &str, call: u32) -> Option<BookFault> {
    for word in said.split(' ') {
        if let Some((number, fault)) = word.split_once(':')
            && number.parse::<u32>() == Ok(call)
        {
            return if fault == "noMemory" {
                Some(BookFault::NoMemory)
            } else {
                Some(BookFault::Store)
            };
        }
    }
    None
}

impl FailingBook {
    pub fn new(inner: MemoryBook, said: &'static str) -> FailingBook {
        FailingBook {
            inner,
            said,
            calls: 0,
            row_reads: 0,
            failures: 0,
        }
    }

    // Counts this call, which may be one that fails.
    fn call(&mut self) -> Result<(), BookFault>
        ensures inner { self.new.inner ≡ self.old.inner }
        ensures cause { IsErrOf result BookFault.Store
            → HasRisen self.old.failures self.new.failures }
        ensures quiet { ¬ (IsErrOf result BookFault.Store) → self.new.failures ≡ self.old.failures }
        ensures counts { self.old.failures ≤ self.new.failures }
    {
        self.calls = self.calls.saturating_add(1);
        match fault_at(self.said, self.calls) {
            None => Ok(()),
            Some(BookFault::NoMemory) => Err(BookFault::NoMemory),
            Some(BookFault::Store) => {
                self.failures = self.failures.saturating_add(1);
                Err(BookFault::Store)
            }
        }
    }
}

impl Summed for FailingBook {
    fn summary(&mut self, rt: &impl Abort, alloc: Global) -> String {
        let rows = self.inner.rows().expect(rt, "memory");
        let (executed, groups) = (rows.last_stamp, rows.groups.len());
        let (stations, failures, reads) = (rows.stations.len(), self.failures, self.row_reads);
        let summary = format!(in alloc;
            "executed {executed}, groups {groups}, stations {stations}, failures {failures}, reads {reads}"
        );
        summary.expect(rt, "memory")
    }
}

impl Book for FailingBook {
    ghost state = { λ b. record {
      content = b.inner;
      stops = λ c. c ≡ b.inner;
      is_sound = ⊤;
      is_clean = ⊤;
      is_open = ⊤;
      failures = b.failures;
    } };

    ghost settled = { λ b c clean sound up found. found };

    ghost stays = { λ b clean sound up. refl };

    ghost stands = { λ b clean sound. ∣ (_, refl) ∣₁ };

    fn failures(&self) -> u64 {
        self.failures
    }

    fn limits(&mut self) -> Result<Limits, BookFault> {
        self.inner.limits()
    }

    fn rows(&mut self) -> Result<Rows, BookFault> {
        self.row_reads = self.row_reads.saturating_add(1);
        self.call()?;
        self.inner.rows()
    }

    fn kept(&mut self, requester: &Requester, invoke: Invoke) -> Result<Option<Kept>, BookFault> {
        self.call()?;
        self.inner.kept(requester, invoke)
    }

    fn kept_after(&mut self, stamp: u64) -> Result<Option<Kept>, BookFault> {
        self.inner.kept_after(stamp)
    }

    fn requests_after(&mut self, stamp: u64, limit: usize) -> Result<Vec<Kept>, BookFault> {
        self.inner.requests_after(stamp, limit)
    }

    fn events_after(&mut self, number: u64, limit: usize) -> Result<Vec<Event>, BookFault> {
        self.inner.events_after(number, limit)
    }

    fn events_of_monitor(
        &mut self,
        monitor: u64,
        number: u64,
        limit: usize,
    ) -> Result<Vec<Event>, BookFault> {
        self.inner.events_of_monitor(monitor, number, limit)
    }

    fn commit(&mut self, rows: &Rows, events: &[Event], kept: &Kept) -> Result<(), BookFault> {
        self.inner.commit(rows, events, kept)
    }

    fn commit_changes(
        &mut self,
        changes: &[Change],
        events: &[Event],
        kept: &Kept,
    ) -> Result<(), BookFault> {
        self.call()?;
        self.inner.commit_changes(changes, events, kept)
    }
}
