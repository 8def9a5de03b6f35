//! When two records are the same, with all their members.

ghost use Rattle.std.specs.Prelude.{◌≡◌};
ghost use Rattle.std.specs.Bool.{Decides};

use acd_terms::{Event, Rows};

/// The same events in the same order.
pub(crate) fn are_same_events(a: &[Event], b: &[Event]) -> bool
    ensures { Decides result (a.now ≡ b.now) }
{
    *a == *b
}

/// The same limits, records and counters.
pub(crate) fn are_same_rows(a: &Rows, b: &Rows) -> bool
    ensures { Decides result (a.now ≡ b.now) }
{
    *a == *b
}
