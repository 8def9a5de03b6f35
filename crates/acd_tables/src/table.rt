//! Records found by the hash of their keys.

ghost use Rattle.std.specs.Prelude.{◌≡◌, ◌<◌, ◌^◌, ◌↔◌, [], length, OnOk, OnErr, IfOk};
ghost use Rattle.acd_terms.specs.Lists.{Among, find_by, remove_by};
ghost use Rattle.acd_tables.specs.KeyedMaps.{with_record};

use acd_terms::{Keyed, Listed, ascends};
use std::alloc::{AllocError, Global};
use std::collections::hash_map::Values;
use std::collections::{BTreeMap, HashMap};
use std::marker::Model;

/// Records found by the hash of their keys, seen as a list in ascending key.
#[derive(Drop)]
pub struct Table<R: Keyed> {
    map: HashMap<R::Key, R>,
}

impl<R: Keyed> Model for Table<R> {
    ghost use Rattle.std.specs.Prelude.{[], List};
    ghost use Rattle.std.specs.HashMap.{values};
    ghost use Rattle.acd_tables.specs.KeyedMaps.{placed, IsKeyed};

    ghost Value = { List R };

    ghost view = { λ t. placed R.Key.cmp R.key_of [] (values t.map) };

    ghost invariant = { λ t. IsKeyed R.Key.eq R.key_of t.map.entries };
}

impl<R: Keyed> Table<R> {
    pub fn new(alloc: Global) -> Self
        ensures { result ≡ [] }
    {
        Table {
            map: HashMap::new(alloc),
        }
    }

    /// These records. Records that aren't in ascending key are refused as if there were no memory.
    pub fn from_slice(alloc: Global, records: &[R]) -> Result<Self, AllocError>
        ensures { IfOk result (λ t. t ≡ records.now) }
    {
        if !ascends(records) {
            return Err(AllocError);
        }
        let mut table = Table::new(alloc);
        for record in records {
            table.put(*record)?;
        }
        Ok(table)
    }

    /// The records, in no order.
    pub fn values(&self) -> Values<'_, R::Key, R>
        ensures { (r : R) → Among r self.now ↔ Among r result }
    {
        self.map.values()
    }

    pub fn len(&self) -> usize
        ensures value { result ≡ length self.now }
        ensures small { result < 2 ^ 63 }
    {
        self.map.len()
    }

    /// The record at the key.
    pub fn find(&self, key: R::Key) -> Option<R>
        ensures { result ≡ find_by (λ x. R.Key.cmp key (R.key_of x)) self.now }
    {
        self.map.get(&key).copied()
    }

    /// Puts the record at its key. One that finds no memory changes nothing.
    pub fn put(&mut self, item: R) -> Result<(), AllocError>
        ensures ok { OnOk result (self.new ≡ with_record R.Key.cmp R.key_of self.old item) }
        ensures err { OnErr result (self.new ≡ self.old) }
    {
        if let Some(old) = self.map.get_mut(&item.key()) {
            *old = item;
            return Ok(());
        }
        self.map.insert(item.key(), item)?;
        Ok(())
    }

    /// Removes the record at the key.
    pub fn remove(&mut self, key: R::Key)
        ensures { self.new ≡ remove_by (λ x. R.Key.cmp key (R.key_of x)) self.old }
    {
        self.map.remove(&key);
    }

    /// The records in ascending key, copied.
    pub fn copied(&self, alloc: Global) -> Result<Listed<R>, AllocError>
        ensures { IfOk result (λ l. l ≡ self.now) }
    {
        let mut sorted = BTreeMap::new(alloc);
        for record in self.map.values() {
            sorted.insert(record.key(), *record)?;
        }
        Ok(Listed::new(sorted.values().copied().collect(alloc)?))
    }
}
