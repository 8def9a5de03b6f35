//! The events at the devices of the running monitors, as far as they are indexed.

ghost use Rattle.std.specs.Prelude.{IfSome};
ghost use Rattle.acd_book.specs.MonitorIndexes.{ArePageNumbers};
ghost use Rattle.acd_sqlbook.specs.EventIndex.{IndexGoesOn, IsIndexAfter, RisesTo};

use acd_book::MonitorIndex;
use acd_model::Change;
use acd_terms::{DeviceId, Event};
use sqlite::Error;

/// For the device of each running monitor the numbers of its events, and the greatest of all numbers.
#[derive(Drop)]
pub(crate) struct Index {
    pub(crate) watched: MonitorIndex,
    pub(crate) last: u64,
}

// A look for one event costs about as much as going on through so many.
const EVENTS_A_LOOK: u64 = 100;

impl Index {
    // Whether a look for each of a page's numbers costs more than going on from a number to the last of them.
    fn is_near(&self, numbers: &[u64], number: u64, limit: usize) -> bool {
        let end = match numbers.last() {
            Some(last) if numbers.len() >= limit => *last,
            _ => self.last,
        };
        end.saturating_sub(number) / EVENTS_A_LOOK < numbers.len() as u64
    }

    /// The numbers of the first events at a device above a number, where that is known and they are far apart.
    pub(crate) fn numbers(&self, device: DeviceId, number: u64, limit: usize) -> Option<&[u64]>
        ensures { IfSome result (λ found.
            ArePageNumbers self.now.watched device number limit found.now) }
    {
        let numbers = self.watched.numbers(device, number, limit)?;
        if self.is_near(numbers, number, limit) {
            return None;
        }
        Some(numbers)
    }
}

// The last number, where each of the events has one above all before.
fn rises(last: u64, events: &[Event]) -> Option<u64>
    ensures { IfSome result (RisesTo last events.now) }
{
    let mut top = last;
    for event in events {
        if event.number <= top {
            return None;
        }
        top = event.number;
    }
    Some(top)
}

/// What a commit leaves of it: nothing, where an event isn't above all before.
pub(crate) fn index_extended(index: Index, changes: &[Change], events: &[Event]) -> Option<Index>
    ensures { IfSome result (λ next. IndexGoesOn index events.now next) }
{
    let top = rises(index.last, events)?;
    let Index { mut watched, last } = index;
    watched.change(changes, last);
    watched.add_all(events);
    Some(Index { watched, last: top })
}

/// What is indexed after a commit. A failure removes the index, and it begins anew at the next page.
pub(crate) fn index_after(
    before: Option<Index>,
    done: &Result<(), Error>,
    changes: &[Change],
    events: &[Event],
) -> Option<Index>
    ensures { IsIndexAfter before done.now events.now result }
{
    let index = before?;
    if done.is_err() {
        return None;
    }
    index_extended(index, changes, events)
}
