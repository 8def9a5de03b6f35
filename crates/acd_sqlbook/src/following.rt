//! The kept records one after the other.

ghost use Rattle.acd_sqlbook.specs.RecordsAhead.{IsAheadOf, IsNextAfter};
ghost use Rattle.acd_sqlbook.specs.OverReady.{Carries, ReadyFails, ReadyReads};

use crate::ahead::Ahead;
use crate::ready::Ready;
use acd_book::Kept;
use sqlite::{Alter, Error};
use std::alloc::Global;

// So many are read at once.
const PAGE: usize = 100;

/// The kept record of the least greater stamp, which may have been read ahead.
pub(crate) fn kept_followed<S: Alter>(
    alloc: Global,
    ready: &mut Ready<S>,
    ahead: &mut Ahead,
    stamp: u64,
) -> Result<Option<Kept>, Error>
    ensures recorded { Carries ready (IsAheadOf ahead.old) (IsAheadOf ahead.new) }
    ensures read { ReadyReads ready result (IsNextAfter ahead.old stamp) }
    ensures cause { ReadyFails ready result }
{
    if ready.known_open {
        if let Some(kept) = ahead.next(stamp) {
            return Ok(Some(kept));
        }
    }
    let page = ready.records_after(alloc, stamp, PAGE)?;
    *ahead = Ahead::of_page(stamp, page);
    Ok(ahead.next(stamp))
}
