//! The numbers of the events at one device.

ghost use Rattle.std.specs.Prelude.{◌≡◌, ◌++◌, ◌∷◌, ℕ, [], filter, nat_lt, take, OnOk};
ghost use Rattle.std.specs.List.Sorted.{IsNonDecreasingBy};

use std::alloc::{AllocError, Global};

/// The numbers of the events at a device, in ascending order.
#[derive(Drop)]
pub(crate) struct Numbers {
    /// Those above this number are listed, all of them.
    pub(crate) above: u64,
    pub(crate) numbers: Vec<u64>,
    /// How many running monitors watch the device.
    pub(crate) monitors: u64,
    ghost rise: { IsNonDecreasingBy (λ (n : ℕ). n) numbers.items },
}

impl Numbers {
    ghost use Rattle.acd_book.specs.MonitorIndexes.{AddsIfAbove};

    pub(crate) fn new(alloc: Global, above: u64) -> Numbers
        ensures above { result.above ≡ above }
        ensures none { result.numbers.items ≡ [] }
        ensures one { result.monitors ≡ 1 }
    {
        Numbers {
            above,
            numbers: Vec::new(alloc),
            monitors: 1,
        }
    }

    // Adds a number that is no less than those before it. Any other is refused as if there were no memory.
    fn push(&mut self, number: u64) -> Result<(), AllocError>
        ensures above { self.new.above ≡ self.old.above }
        ensures counts { self.new.monitors ≡ self.old.monitors }
        ensures added { OnOk result
            (self.new.numbers.items ≡ self.old.numbers.items ++ number ∷ []) }
    {
        if let Some(last) = self.numbers.last() {
            if number < *last {
                return Err(AllocError);
            }
        }
        self.numbers.push(number)?;
        Ok(())
    }

    /// Adds the number of an event at the device, if it is above the first.
    pub(crate) fn add(&mut self, number: u64) -> Result<(), AllocError>
        ensures above { self.new.above ≡ self.old.above }
        ensures counts { self.new.monitors ≡ self.old.monitors }
        ensures added { OnOk result (AddsIfAbove self.old self.new number) }
    {
        if number <= self.above {
            return Ok(());
        }
        self.push(number)
    }

    /// The first `limit` of those above a number.
    pub(crate) fn after(&self, number: u64, limit: usize) -> &[u64]
        ensures { result.now ≡ take limit (filter (nat_lt number) self.now.numbers.items) }
    {
        let place = self.numbers.partition_point(|one| *one <= number);
        let after = &self.numbers[place..];
        &after[..limit.min(after.len())]
    }
}
