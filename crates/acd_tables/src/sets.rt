//! Sets, and sets by key.

ghost use Rattle.std.specs.Prelude.{◌≡◌, ◌≤◌, ◌<◌, ◌++◌, [], ◌∷◌, length, not, Some, OnOk, OnErr, IfOk, if◌then◌else◌};
ghost use Rattle.std.specs.Ordering.{nat_cmp};
ghost use Rattle.acd_tables.specs.IndexedRows.{IsFirstIn};
ghost use Rattle.acd_tables.specs.Sets.{holds, Stays, HasSet, Inserted, Removed, InsertedAt, RemovedAt};
ghost use Rattle.acd_tables.specs.Swaps.{Enters, Leaves, Undoes};
ghost use Rattle.std.specs.BTreeSet.{contains};

use acd_terms::{DeviceArray, DeviceId};
use std::alloc::{AllocError, Global};
use std::collections::{BTreeMap, BTreeSet};

/// Puts the member into the set at the key, and says whether it is new there. Where the key has no set
/// it fails as if there were no memory.
#[tactic(auto, unfolding(crate::specs::Sets::holds, crate::specs::Sets::has_set))]
pub(crate) fn enter<K: Ord + Copy, E: Ord + Copy>(
    sets: &mut BTreeMap<K, BTreeSet<E>>,
    key: K,
    member: E,
) -> Result<bool, AllocError>
    ensures ok { OnOk result (InsertedAt K.cmp E.cmp sets.old sets.new (key, member)) }
    ensures added { IfOk result (λ added. added ≡ not (holds K.cmp E.cmp sets.old key member)) }
    ensures err { OnErr result (Stays K.cmp E.cmp sets.old sets.new) }
{
    match sets.get_mut(&key) {
        None => Err(AllocError),
        Some(set) => Ok(set.insert(member)?),
    }
}

/// Takes the member out of the set at the key.
#[tactic(auto, unfolding(crate::specs::Sets::holds, crate::specs::Sets::has_set))]
pub(crate) fn leave<K: Ord + Copy, E: Ord + Copy>(
    sets: &mut BTreeMap<K, BTreeSet<E>>,
    key: K,
    member: E,
)
    ensures { RemovedAt K.cmp E.cmp sets.old sets.new (key, member) }
{
    if let Some(set) = sets.get_mut(&key) {
        set.remove(&member);
    }
}

/// Takes the member out of the set of each of the groups.
pub(crate) fn leave_all<E: Ord + Copy>(
    sets: &mut BTreeMap<DeviceId, BTreeSet<E>>,
    groups: &[DeviceId],
    member: E,
)
    ensures { Leaves E.cmp sets.old sets.new (Some (groups.now, member)) }
{
    for group in groups {
        leave(sets, *group, member);
    }
}

/// Puts the group after the others, if it is new.
pub(crate) fn push_if(entered: &mut DeviceArray, group: DeviceId, new: bool)
    requires { length entered.old < 8 }
    ensures { entered.new ≡ (if new then entered.old ++ group ∷ [] else entered.old) }
{
    if new {
        entered.push(group);
    }
}

/// Puts the member into the set of each of the groups, and answers those where it is new. Where one finds no memory or
/// no set, it is put into none.
pub(crate) fn enter_all<E: Ord + Copy>(
    sets: &mut BTreeMap<DeviceId, BTreeSet<E>>,
    groups: &[DeviceId],
    member: E,
) -> Result<DeviceArray, AllocError>
    requires { length groups.now ≤ 8 }
    ensures ok { OnOk result (Enters E.cmp sets.old sets.new (Some (groups.now, member))) }
    ensures undo { IfOk result (λ new. Undoes E.cmp sets.old sets.new (Some (new, member))) }
    ensures err { OnErr result (Stays nat_cmp E.cmp sets.old sets.new) }
{
    let mut entered = DeviceArray::none();
    for group in groups {
        match enter(sets, *group, member) {
            Ok(new) => push_if(&mut entered, *group, new),
            Err(error) => {
                leave_all(sets, entered.as_slice(), member);
                return Err(error);
            }
        }
    }
    Ok(entered)
}

/// Makes sure that there is a set at the key.
#[tactic(auto, unfolding(crate::specs::Sets::holds, crate::specs::Sets::has_set))]
pub(crate) fn add_set<K: Ord + Copy, E: Ord + Copy>(
    alloc: Global,
    sets: &mut BTreeMap<K, BTreeSet<E>>,
    key: K,
) -> Result<(), AllocError>
    ensures ok { OnOk result (HasSet K.cmp E.cmp sets.old sets.new key) }
    ensures err { OnErr result (Stays K.cmp E.cmp sets.old sets.new) }
{
    if !sets.contains_key(&key) {
        sets.insert(key, BTreeSet::new(alloc))?;
    }
    Ok(())
}

/// The first member of the set of the group.
#[tactic(auto, unfolding(crate::specs::Sets::holds))]
pub(crate) fn first_in<E: Ord + Copy>(
    sets: &BTreeMap<DeviceId, BTreeSet<E>>,
    group: DeviceId,
) -> Option<E>
    ensures { IsFirstIn E.cmp sets.now group result }
{
    match sets.get(&group) {
        None => None,
        Some(set) => match set.first() {
            None => None,
            Some(first) => Some(*first),
        },
    }
}

/// Puts the key into the set, if it belongs there.
pub(crate) fn insert_if<K: Ord + Copy>(
    index: &mut BTreeSet<K>,
    key: K,
    belongs: bool,
) -> Result<(), AllocError>
    ensures ok { OnOk result (Inserted K.cmp index.old index.new key belongs) }
    ensures err { OnErr result ((k : K) → contains K.cmp index.new k ≡ contains K.cmp index.old k) }
{
    if belongs {
        index.insert(key)?;
    }
    Ok(())
}

/// Removes the key from the set, if it is no longer needed.
pub(crate) fn remove_if<K: Ord + Copy>(index: &mut BTreeSet<K>, key: K, gone: bool)
    ensures { Removed K.cmp index.old index.new key gone }
{
    if gone {
        index.remove(&key);
    }
}
