//! The kept records of a book in memory.

ghost use Rattle.std.specs.Prelude.{◌≡◌, ◌++◌, ◌∷◌, [], true, drop, slice_get, option_copied, OnOk, OnErr};
ghost use Rattle.acd_book.specs.Content.{kept_of, IsKeptAfter};
ghost use Rattle.acd_book.specs.Memory.{is_numbered, stamp_of, HasSamePlaces, HasPlaces, IsPlacedNew};

use crate::kept::Kept;
use crate::key::Key;
use acd_terms::{Invoke, Requester};
use std::alloc::{AllocError, Global};
use std::collections::HashMap;

/// The kept records, whose stamps are 1, 2, 3 and so on, and the place of each key among them.
#[derive(Drop)]
pub(crate) struct Replies {
    pub(crate) records: Vec<Kept>,
    pub(crate) places: HashMap<Key, usize>,
    ghost numbered: { is_numbered stamp_of 0 records.items ≡ true },
    ghost placed: { HasPlaces places records.items },
}

impl Replies {
    pub(crate) fn new(alloc: Global) -> Replies
        ensures { result.records.items ≡ [] }
    {
        Replies {
            records: Vec::new(alloc),
            places: HashMap::new(alloc),
        }
    }

    /// The record under a key.
    pub(crate) fn under(&self, requester: &Requester, invoke: Invoke) -> Option<&Kept>
        ensures { option_copied result ≡ kept_of self.now.records.items requester.now invoke }
    {
        let key = Key {
            requester: *requester,
            invoke,
        };
        let place = *self.places.get(&key)?;
        record_at(&self.records, place)
    }

    /// The record of the least greater stamp.
    pub(crate) fn after(&self, stamp: u64) -> Option<&Kept>
        ensures { IsKeptAfter self.now.records.items stamp (option_copied result) }
    {
        record_at(&self.records, stamp as usize)
    }

    /// The records above a stamp.
    pub(crate) fn all_after(&self, stamp: u64) -> &[Kept]
        ensures { result.now ≡ drop stamp self.now.records.items }
    {
        let place = (stamp as usize).min(self.records.len());
        &self.records[place..]
    }

    /// Adds a record. One whose stamp doesn't go on or whose key is there is refused as if there were no
    /// memory.
    pub(crate) fn push(&mut self, kept: Kept) -> Result<(), AllocError>
        ensures ok { OnOk result (self.new.records.items ≡ self.old.records.items ++ kept ∷ []) }
        ensures err { OnErr result (self.new.records.items ≡ self.old.records.items) }
    {
        let place = self.records.len();
        if kept.stamp != place as u64 + 1 {
            return Err(AllocError);
        }
        self.records.reserve(1)?;
        put_new(&mut self.places, &kept.key(), place)?;
        self.records.push(kept)?;
        Ok(())
    }
}

// Gives a new key its place. One that is there keeps the place that it has, and is refused as if there
// were no memory: a place instead of another takes none.
fn put_new(places: &mut HashMap<Key, usize>, key: &Key, place: usize) -> Result<(), AllocError>
    ensures ok { OnOk result (IsPlacedNew places.old places.new key.now place) }
    ensures err { OnErr result (HasSamePlaces places.old places.new) }
{
    let Some(old) = places.insert(*key, place)? else {
        return Ok(());
    };
    let _ = places.insert(*key, old);
    Err(AllocError)
}

fn record_at(records: &[Kept], place: usize) -> Option<&Kept>
    ensures { option_copied result ≡ slice_get records.now place }
{
    records.get(place)
}
