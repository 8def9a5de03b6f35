//! Kept records that were read ahead, so that an audit reads a page for many of them.

ghost use Rattle.std.specs.Prelude.{◌≡◌, [], None, IfSome, Some, reverse};
ghost use Rattle.acd_book.specs.Content.{IsKeptAfter};
ghost use Rattle.acd_sqlbook.specs.RecordsAhead.{IfAhead, IsAhead};

use acd_book::Kept;
use std::alloc::Global;

/// The records of the least stamps above one, the last of them first.
#[derive(Drop)]
pub(crate) struct Ahead {
    pub(crate) above: u64,
    pub(crate) records: Vec<Kept>,
}

impl Ahead {
    /// Nothing was read ahead.
    pub(crate) fn none(alloc: Global) -> Ahead
        ensures { result.records.items ≡ [] }
    {
        Ahead {
            above: 0,
            records: Vec::new(alloc),
        }
    }

    /// These were read, of which the first is that of the least stamp above one.
    pub(crate) fn of_page(above: u64, page: Vec<Kept>) -> Ahead
        ensures at { result.above ≡ above }
        ensures turned { result.records.items ≡ reverse page.items }
    {
        let mut records = page;
        records.reverse();
        Ahead { above, records }
    }

    /// Forgets what was read ahead.
    pub(crate) fn forget(&mut self)
        ensures { self.new.records.items ≡ [] }
    {
        self.records.clear();
    }

    /// The record of the least stamp above one, where it was read ahead.
    pub(crate) fn next(&mut self, stamp: u64) -> Option<Kept>
        ensures next { IfAhead self.old
            (λ kept. IfSome result (λ k. IsKeptAfter kept stamp (Some k))) }
        ensures still { IfAhead self.old (IsAhead self.new) }
        ensures none { result ≡ None → self.old.above ≡ stamp → self.old.records.items ≡ [] }
    {
        if stamp != self.above {
            return None;
        }
        let kept = self.records.pop()?;
        self.above = kept.stamp;
        Some(kept)
    }
}
