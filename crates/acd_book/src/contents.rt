//! The content of a book in memory, and how a commit changes it: whole or not at all.

ghost use Rattle.std.specs.Prelude.{◌≡◌, ◌≤◌, ◌<◌, ◌+◌, IfOk, OnOk, OnErr, take, length};
ghost use Rattle.acd_book.specs.Content.{empty_content, kept_under, IsNextKept, records_page, events_page, monitor_page, commit_of, commit_by};
ghost use Rattle.acd_book.specs.CallResults.{GivesList};

use crate::kept::Kept;
use crate::ledger::Ledger;
use crate::log::Log;
use crate::replies::Replies;
use acd_model::Change;
use acd_terms::{Event, Invoke, Limits, Requester, Rows};
use std::alloc::{AllocError, Global};

/// The tables, the events and the kept records.
#[derive(Drop)]
pub(crate) struct Contents {
    pub(crate) alloc: Global,
    pub(crate) ledger: Ledger,
    pub(crate) log: Log,
    pub(crate) replies: Replies,
}

impl Contents {
    ghost use Rattle.acd_book.specs.MemoryContent.{memory_content, waiting, HasMade};

    pub(crate) fn new(alloc: Global, limits: Limits) -> Contents
        ensures empty { memory_content result ≡ empty_content limits }
        ensures none_wait { waiting result ≡ 0 }
    {
        Contents {
            alloc,
            ledger: Ledger::new(alloc, limits),
            log: Log::new(alloc),
            replies: Replies::new(alloc),
        }
    }

    /// The record kept under a key.
    pub(crate) fn kept(
        &self,
        requester: &Requester,
        invoke: Invoke,
    ) -> Result<Option<Kept>, AllocError>
        ensures { IfOk result
            (λ found. found ≡ kept_under requester.now invoke (memory_content self.now)) }
    {
        match self.replies.under(requester, invoke) {
            Some(kept) => Ok(Some(kept.clone()?)),
            None => Ok(None),
        }
    }

    /// The kept record of the least greater stamp.
    pub(crate) fn kept_after(&self, stamp: u64) -> Result<Option<Kept>, AllocError>
        ensures { IfOk result (IsNextKept stamp (memory_content self.now)) }
    {
        match self.replies.after(stamp) {
            Some(kept) => Ok(Some(kept.clone()?)),
            None => Ok(None),
        }
    }

    pub(crate) fn requests_after(&self, stamp: u64, limit: usize) -> Result<Vec<Kept>, AllocError>
        ensures { GivesList result (records_page stamp limit (memory_content self.now)) }
    {
        first_kept(self.alloc, self.replies.all_after(stamp), limit)
    }

    pub(crate) fn events_after(&self, number: u64, limit: usize) -> Result<Vec<Event>, AllocError>
        ensures { GivesList result (events_page number limit (memory_content self.now)) }
    {
        first(self.alloc, self.log.all_after(number), limit)
    }

    /// The first events of a running monitor above a number. The content stays the same.
    pub(crate) fn events_of_monitor(
        &mut self,
        monitor: u64,
        number: u64,
        limit: usize,
    ) -> Result<Vec<Event>, AllocError>
        ensures found { GivesList result
            (monitor_page monitor number limit (memory_content self.old)) }
        ensures same { memory_content self.new ≡ memory_content self.old }
        ensures no_longer { waiting self.new ≤ waiting self.old }
    {
        let Some(watched) = self.ledger.monitor(monitor)? else {
            return Ok(Vec::new(self.alloc));
        };
        let above = number.max(watched.after_event);
        self.log.at_device(self.alloc, watched.device, above, limit)
    }

    pub(crate) fn commit(
        &mut self,
        rows: &Rows,
        events: &[Event],
        kept: &Kept,
    ) -> Result<(), AllocError>
        ensures ok { OnOk result
            (HasMade (commit_of rows.now events.now kept.now) self.old self.new) }
        ensures err { OnErr result (memory_content self.new ≡ memory_content self.old) }
        ensures no_longer { waiting self.new ≤ waiting self.old }
    {
        if !self.log.precedes(events) {
            return Err(AllocError);
        }
        self.log.reserve(events.len())?;
        let kept = kept.clone()?;
        let ledger = Ledger::from_rows(self.alloc, rows)?;
        self.replies.push(kept)?;
        self.log.watch_only(self.alloc, rows.monitors.as_slice());
        self.log.append(events);
        self.ledger = ledger;
        Ok(())
    }

    /// Fewer than 256 changes wait before it, or it is refused as if there were no memory.
    pub(crate) fn commit_changes(
        &mut self,
        changes: &[Change],
        events: &[Event],
        kept: &Kept,
    ) -> Result<(), AllocError>
        ensures ok { OnOk result
            (HasMade (commit_by changes.now events.now kept.now) self.old self.new) }
        ensures err { OnErr result (memory_content self.new ≡ memory_content self.old) }
        ensures bounded { OnOk result (waiting self.new < 256 + length changes.now) }
        ensures no_longer { OnErr result (waiting self.new ≤ waiting self.old) }
    {
        if !self.log.precedes(events) || !self.ledger.counts(events.len() as u64) {
            return Err(AllocError);
        }
        let (stamp, moment) = (kept.stamp, kept.moment);
        let kept = kept.clone()?;
        self.ledger.reserve(changes.len())?;
        self.log.reserve(events.len())?;
        self.replies.push(kept)?;
        self.log.watch(changes);
        self.log.append(events);
        self.ledger
            .append(changes, stamp, moment, events.len() as u64);
        self.ledger.settle_many();
        Ok(())
    }
}

// The first of these.
fn first(alloc: Global, events: &[Event], limit: usize) -> Result<Vec<Event>, AllocError>
    ensures { GivesList result (take limit events.now) }
{
    let end = limit.min(events.len());
    events[..end].to_vec(alloc)
}

// The same of kept records.
fn first_kept(alloc: Global, records: &[Kept], limit: usize) -> Result<Vec<Kept>, AllocError>
    ensures { GivesList result (take limit records.now) }
{
    let end = limit.min(records.len());
    records[..end].to_vec(alloc)
}
