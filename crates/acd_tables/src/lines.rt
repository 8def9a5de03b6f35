//! The calls that are listed at a device.

ghost use Rattle.std.specs.Prelude.{◌≡◌, ℕ, true, OnOk, OnErr};
ghost use Rattle.std.specs.List.Sorted.{IsStrictlySortedBy};
ghost use Rattle.acd_terms.specs.Lists.{Among};
ghost use Rattle.acd_tables.specs.Sets.{Inserted, Removed, SameKeys};
ghost use Rattle.acd_tables.specs.IndexedRows.{pair_cmp, joins};
ghost use Rattle.acd_tables.specs.Uses.{first_line, past_lines};

use crate::sets::{insert_if, remove_if};
use acd_terms::DeviceId;
use std::alloc::AllocError;
use std::collections::BTreeSet;
use std::collections::btree_set::Range;
use std::ops::Bound;

// At the calls of the device.
#[tactic(auto, unfolding(crate::specs::Uses::first_line))]
fn first_line(device: DeviceId) -> Bound<(u64, u64)>
    ensures { result ≡ first_line device }
{
    Bound::Included((device.number(), 0))
}

// After the calls of the device.
#[tactic(auto, unfolding(crate::specs::Uses::past_lines))]
fn past_lines(device: DeviceId) -> Bound<(u64, u64)>
    ensures { result ≡ past_lines device }
{
    let number = device.number();
    if number == u64::MAX {
        Bound::Unbounded
    } else {
        Bound::Excluded((number + 1, 0))
    }
}

/// The keys of the calls that are listed at the device.
pub(crate) fn lines_at(lines: &BTreeSet<(u64, u64)>, device: DeviceId) -> Range<'_, (u64, u64)>
    ensures listed { (c : ℕ) → joins lines.now device c ≡ true → Among (device, c) result }
    ensures sorted { IsStrictlySortedBy pair_cmp result }
{
    lines.range((first_line(device), past_lines(device)))
}

/// Lists the call at the device, if it is new there.
pub(crate) fn list(
    lines: &mut BTreeSet<(u64, u64)>,
    device: DeviceId,
    call: u64,
    new: bool,
) -> Result<(), AllocError>
    ensures ok { OnOk result (Inserted pair_cmp lines.old lines.new (device, call) new) }
    ensures err { OnErr result (SameKeys pair_cmp lines.old lines.new) }
{
    insert_if(lines, (device.number(), call), new)
}

/// Lists the call at the device no more, if it isn't there any more.
pub(crate) fn unlist(lines: &mut BTreeSet<(u64, u64)>, device: DeviceId, call: u64, gone: bool)
    ensures { Removed pair_cmp lines.old lines.new (device, call) gone }
{
    remove_if(lines, (device.number(), call), gone);
}
