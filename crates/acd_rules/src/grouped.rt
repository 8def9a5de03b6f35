//! Records that are together by a number of theirs.

ghost use Rattle.std.specs.Prelude.{◌≡◌, ℕ, IfOk, ltb, leb};
ghost use Rattle.std.specs.Fn.{ComputesKey};
ghost use Rattle.acd_rules.specs.Groups.{IsByNumber, FindsAll};

use std::alloc::{AllocError, Global};

/// A list of records, sorted by a number of theirs where there was memory for that.
#[derive(Drop)]
pub struct Grouped<'a, T: Copy> {
    whole: &'a [T],
    sorted: Option<Vec<T>>,
}

impl<'a, T: Copy> Grouped<'a, T> {
    ghost use Rattle.acd_rules.specs.SortedRecords.{IsGrouped, LooksUp};

    /// These records, in any order, by a number of theirs.
    pub fn by<F: Fn(&T) -> u64>(alloc: Global, whole: &'a [T], number: F) -> Self
        requires { F.IsAlwaysCallable number }
        ensures { (key : T → ℕ) → ComputesKey F.FnMut key number
            → IsGrouped key whole.now result }
    {
        let sorted = sorted(alloc, whole, number).ok();
        Grouped { whole, sorted }
    }

    /// Those whose number it is, in their order, or all. A call asks for them by the number by which they are sorted.
    pub fn with<F: Fn(&T) -> u64>(&self, wanted: u64, number: F) -> &[T]
        requires { F.IsAlwaysCallable number }
        ensures { LooksUp F.FnMut number wanted self.now result.now }
    {
        match &self.sorted {
            None => self.whole,
            Some(sorted) => alike(sorted, wanted, number),
        }
    }
}

// The records in the order of their numbers. Those of one number stay in the order of the list.
fn sorted<T: Copy, F: Fn(&T) -> u64>(
    alloc: Global,
    records: &[T],
    number: F,
) -> Result<Vec<T>, AllocError>
    requires { F.IsAlwaysCallable number }
    ensures { IfOk result (λ v. IsByNumber F.FnMut number records.now v.items) }
{
    let mut sorted = Vec::from_slice(alloc, records)?;
    sorted.sort_by_key(number)?;
    Ok(sorted)
}

// Those whose number it is.
fn alike<T: Copy, F: Fn(&T) -> u64>(sorted: &[T], wanted: u64, number: F) -> &[T]
    requires { F.IsAlwaysCallable number }
    ensures { FindsAll F.FnMut number wanted sorted.now result.now }
{
    let from = sorted.partition_point(
        |item: &T| -> bool
            requires { F.IsAlwaysCallable number }
            ensures { (key : T → ℕ) → ComputesKey F.FnMut key number
                → result ≡ ltb (key item.now) wanted }
        { number(item) < wanted },
    );
    let rest = &sorted[from..];
    let len = rest.partition_point(
        |item: &T| -> bool
            requires { F.IsAlwaysCallable number }
            ensures { (key : T → ℕ) → ComputesKey F.FnMut key number
                → result ≡ leb (key item.now) wanted }
        { number(item) <= wanted },
    );
    &rest[..len]
}
