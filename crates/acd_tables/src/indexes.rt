//! The indexes: who waits and who is able to take a call in each group, who is at a station, the calls at a device,
//! and what tick may end.

ghost use Rattle.std.specs.Prelude.{◌≡◌, ◌≤◌, ℕ, true, false, not, filter, length, None, OnOk, OnErr, IfOk, if◌then◌else◌};
ghost use Rattle.std.specs.Ordering.{nat_cmp};
ghost use Rattle.acd_terms.specs.Groups.{is_one_of};
ghost use Rattle.acd_tables.specs.Sets.{holds, Stays, KeepsKeys};
ghost use Rattle.acd_tables.specs.IndexedRows.{offer_cmp, offer_key, HasOffer, ListsOffers, HasNoEntry};
ghost use Rattle.acd_tables.specs.Swaps.{is_swap_entry, Enters, Leaves, Undoes, LeavesBut, ListsGroups, EntryJust, ListsNoMore, IsPruned, left_of, is_of_group, Offers, Entered, Undone, IndexesUntouched, TakenOut, IsBlank, ListsGroup, ListsEach, KeepsWaiting, GroupJust, Pruned};

use crate::records::Records;
use crate::sets::{enter, enter_all, insert_if, leave, leave_all, push_if, remove_if};
use crate::single_group::SingleGroup;
use acd_terms::{AgentId, DeviceArray, DeviceId, GroupRecord, Priority};
use std::alloc::{AllocError, Global};
use std::cmp::Reverse;
use std::collections::{BTreeMap, BTreeSet, HashMap};

/// A group's place among those that may have an offer: by descending priority, and then by ascending number.
pub type OfferKey = (Reverse<Priority>, DeviceId);

/// The sets kept beside the records, so that look-ups needn't scan them.
#[derive(Drop)]
pub struct Indexes {
    /// For each group place and call of who waits there.
    pub(crate) queues: BTreeMap<DeviceId, BTreeSet<(u64, u64)>>,
    /// For each group stamp and number of the agents that may be offered a call.
    pub(crate) ready: BTreeMap<DeviceId, BTreeSet<(u64, AgentId)>>,
    /// The groups that have both, each at its priority; there may be more.
    pub(crate) offering: BTreeSet<OfferKey>,
    /// The agent at a station.
    pub(crate) seats: HashMap<DeviceId, AgentId>,
    /// Number of the device, and call, of the connections.
    pub(crate) lines: BTreeSet<(u64, u64)>,
    /// Call and device of the offers that ring.
    pub(crate) ringing: BTreeSet<(u64, DeviceId)>,
    /// The agents in after-call work.
    pub(crate) working: BTreeSet<AgentId>,
    /// How many connections are queued.
    pub(crate) queued: usize,
}

/// One place in a queue and one among the ready agents of some groups, if there are such.
#[derive(Clone, Copy)]
pub struct Entries {
    pub(crate) queue: Option<(SingleGroup, (u64, u64))>,
    pub(crate) ready: Option<(DeviceArray, (u64, AgentId))>,
}

/// The entries that a change adds and then removes.
#[derive(Clone, Copy)]
pub struct Swap {
    pub(crate) entering: Entries,
    pub(crate) leaving: Entries,
}

impl Indexes {
    pub(crate) fn new(alloc: Global) -> Self
        ensures { IsBlank result }
    {
        Indexes {
            queues: BTreeMap::new(alloc),
            ready: BTreeMap::new(alloc),
            offering: BTreeSet::new(alloc),
            seats: HashMap::new(alloc),
            lines: BTreeSet::new(alloc),
            ringing: BTreeSet::new(alloc),
            working: BTreeSet::new(alloc),
            queued: 0,
        }
    }

    /// Adds the entries, and gives those that are to be removed to undo it. Where it finds no memory or no set, nothing
    /// is added.
    pub(crate) fn enter(
        &mut self,
        records: &Records,
        entries: &Entries,
    ) -> Result<Entries, AllocError>
        requires { Offers records.now self.old }
        ensures ok { OnOk result (Entered records.now self.old self.new entries.now) }
        ensures undo { IfOk result (Undone self.old self.new) }
        ensures err { OnErr result (IndexesUntouched records.now self.old self.new) }
    {
        insert_alone(records, &mut self.offering, &entries.queue)?;
        let waiting = with_waiting(&self.queues, &entries.ready);
        insert_groups(records, &mut self.offering, &waiting)?;
        let queue = enter_alone(&mut self.queues, &entries.queue)?;
        match enter_entry(&mut self.ready, &entries.ready) {
            Ok(ready) => Ok(Entries { queue, ready }),
            Err(error) => {
                leave_alone(&mut self.queues, &queue);
                Err(error)
            }
        }
    }

    /// Takes the entries out.
    pub(crate) fn take_out(&mut self, records: &Records, entries: &Entries)
        requires { Offers records.now self.old }
        ensures { TakenOut records.now self.old self.new entries.now }
    {
        leave_alone(&mut self.queues, &entries.queue);
        leave_entry(&mut self.ready, &entries.ready);
        self.prune(records, entries);
    }

    /// Takes out what leaves, and the groups of the swap that have no offer.
    pub(crate) fn settle(&mut self, records: &Records, swap: &Swap)
        requires { Offers records.now self.old }
        ensures taken { TakenOut records.now self.old self.new swap.now.leaving }
        ensures pruned { Pruned records.now self.new swap.now.entering }
    {
        self.take_out(records, &swap.leaving);
        self.prune(records, &swap.entering);
    }

    // Takes the groups of the entries that have no offer out of those that may have one.
    fn prune(&mut self, records: &Records, entries: &Entries)
        requires { Offers records.now self.old }
        ensures offers { ListsOffers records.now self.old.queues self.old.ready self.new.offering }
        ensures pruned { IsPruned records.now self.old.queues self.old.ready self.new.offering
            entries.now }
        ensures fewer { ListsNoMore self.old.offering self.new.offering }
        ensures rest { self.new ≡ record self.old { offering = self.new.offering } }
    {
        prune_alone(
            records,
            &self.queues,
            &self.ready,
            &mut self.offering,
            &entries.queue,
        );
        prune_entry(
            records,
            &self.queues,
            &self.ready,
            &mut self.offering,
            &entries.ready,
        );
    }
}

/// The place of the group among those that may have an offer.
pub(crate) fn offer_key(group: &GroupRecord) -> OfferKey
    ensures { result ≡ offer_key group.now }
{
    (Reverse(group.priority), group.device)
}

// Puts the group among those that may have an offer.
fn insert_group(
    records: &Records,
    offering: &mut BTreeSet<OfferKey>,
    group: DeviceId,
) -> Result<(), AllocError>
    ensures kept { KeepsKeys offer_cmp offering.old offering.new }
    ensures ok { OnOk result (ListsGroup records.now offering.new group) }
{
    match records.group(group) {
        None => Ok(()),
        Some(record) => {
            insert_if(offering, offer_key(&record), true)?;
            Ok(())
        }
    }
}

fn insert_each(
    records: &Records,
    offering: &mut BTreeSet<OfferKey>,
    groups: &[DeviceId],
) -> Result<(), AllocError>
    ensures kept { KeepsKeys offer_cmp offering.old offering.new }
    ensures ok { OnOk result (ListsGroups records.now offering.new groups.now) }
{
    for group in groups {
        insert_group(records, offering, *group)?;
    }
    Ok(())
}

// Puts the group of the entry among those that may have an offer.
fn insert_alone<E: Copy>(
    records: &Records,
    offering: &mut BTreeSet<OfferKey>,
    entry: &Option<(SingleGroup, E)>,
) -> Result<(), AllocError>
    ensures kept { KeepsKeys offer_cmp offering.old offering.new }
    ensures ok { OnOk result (ListsEach records.now offering.new (is_of_group entry.now)) }
{
    match entry {
        None => Ok(()),
        Some((alone, _)) => insert_group(records, offering, alone.group()),
    }
}

// Puts the groups of the entry among those that may have an offer.
fn insert_groups<E: Copy>(
    records: &Records,
    offering: &mut BTreeSet<OfferKey>,
    entry: &Option<(DeviceArray, E)>,
) -> Result<(), AllocError>
    ensures kept { KeepsKeys offer_cmp offering.old offering.new }
    ensures ok { OnOk result (ListsEach records.now offering.new (is_of_group entry.now)) }
{
    match entry {
        None => Ok(()),
        Some((groups, _)) => insert_each(records, offering, groups.as_slice()),
    }
}

// The groups in which somebody waits.
fn waiting_groups(
    queues: &BTreeMap<DeviceId, BTreeSet<(u64, u64)>>,
    groups: &[DeviceId],
) -> DeviceArray
    requires { length groups.now ≤ 8 }
    ensures { KeepsWaiting queues.now (is_one_of groups.now) (is_one_of result) }
{
    let mut waiting = DeviceArray::none();
    for group in groups {
        let is_waiting = !has_none(queues, *group);
        push_if(&mut waiting, *group, is_waiting);
    }
    waiting
}

// The entry in the groups in which somebody waits.
fn with_waiting<E: Copy>(
    queues: &BTreeMap<DeviceId, BTreeSet<(u64, u64)>>,
    entry: &Option<(DeviceArray, E)>,
) -> Option<(DeviceArray, E)>
    ensures { KeepsWaiting queues.now (is_of_group entry.now) (is_of_group result) }
{
    match entry {
        None => None,
        Some((groups, member)) => Some((waiting_groups(queues, groups.as_slice()), *member)),
    }
}

// Takes the group out of those that may have an offer, where it has none.
fn prune_group(
    records: &Records,
    queues: &BTreeMap<DeviceId, BTreeSet<(u64, u64)>>,
    ready: &BTreeMap<DeviceId, BTreeSet<(u64, AgentId)>>,
    offering: &mut BTreeSet<OfferKey>,
    group: DeviceId,
)
    requires { ListsOffers records.now queues.now ready.now offering.old }
    ensures offers { ListsOffers records.now queues.now ready.now offering.new }
    ensures pruned { GroupJust records.now queues.now ready.now offering.new group }
    ensures fewer { ListsNoMore offering.old offering.new }
{
    if let Some(record) = records.group(group) {
        let gone = !may_offer(queues, ready, group);
        remove_if(offering, offer_key(&record), gone);
    }
}

// Takes the group of the entry out of those that may have an offer, where it has none.
fn prune_alone<E: Copy>(
    records: &Records,
    queues: &BTreeMap<DeviceId, BTreeSet<(u64, u64)>>,
    ready: &BTreeMap<DeviceId, BTreeSet<(u64, AgentId)>>,
    offering: &mut BTreeSet<OfferKey>,
    entry: &Option<(SingleGroup, E)>,
)
    requires { ListsOffers records.now queues.now ready.now offering.old }
    ensures offers { ListsOffers records.now queues.now ready.now offering.new }
    ensures pruned { EntryJust records.now queues.now ready.now offering.new entry.now }
    ensures fewer { ListsNoMore offering.old offering.new }
{
    if let Some((alone, _)) = entry {
        prune_group(records, queues, ready, offering, alone.group());
    }
}

// Takes the groups of the entry out of those that may have an offer, where they have none.
fn prune_entry<E: Copy>(
    records: &Records,
    queues: &BTreeMap<DeviceId, BTreeSet<(u64, u64)>>,
    ready: &BTreeMap<DeviceId, BTreeSet<(u64, AgentId)>>,
    offering: &mut BTreeSet<OfferKey>,
    entry: &Option<(DeviceArray, E)>,
)
    requires { ListsOffers records.now queues.now ready.now offering.old }
    ensures offers { ListsOffers records.now queues.now ready.now offering.new }
    ensures pruned { EntryJust records.now queues.now ready.now offering.new entry.now }
    ensures fewer { ListsNoMore offering.old offering.new }
{
    if let Some((groups, _)) = entry {
        for group in groups.as_slice() {
            prune_group(records, queues, ready, offering, *group);
        }
    }
}

/// The group has one who waits and an agent.
pub(crate) fn may_offer(
    queues: &BTreeMap<DeviceId, BTreeSet<(u64, u64)>>,
    ready: &BTreeMap<DeviceId, BTreeSet<(u64, AgentId)>>,
    group: DeviceId,
) -> bool
    ensures none { result ≡ false → HasNoEntry queues.now ready.now group }
    ensures some { result ≡ true → HasOffer queues.now ready.now group }
{
    !has_none(queues, group) && !has_none(ready, group)
}

// The set of the group has no member.
#[tactic(auto, unfolding(crate::specs::Sets::holds))]
fn has_none<E: Ord + Copy>(sets: &BTreeMap<DeviceId, BTreeSet<E>>, group: DeviceId) -> bool
    ensures none { result ≡ true → (e : E) → holds nat_cmp E.cmp sets.now group e ≡ false }
    ensures some { result ≡ false → (e : E) × (holds nat_cmp E.cmp sets.now group e ≡ true) }
{
    match sets.get(&group) {
        None => true,
        Some(set) => set.is_empty(),
    }
}

fn is_among(groups: &[DeviceId], group: DeviceId) -> bool
    ensures { result ≡ is_one_of groups.now group }
{
    groups.iter().any(|one| *one == group)
}

// The groups that are none of the others.
fn without(groups: &DeviceArray, others: &[DeviceId]) -> DeviceArray
    ensures { result ≡ filter (λ (g : ℕ). not (is_one_of others.now g)) groups.now }
{
    let mut left = DeviceArray::none();
    for group in groups.as_slice() {
        let is_left = !is_among(others, *group);
        push_if(&mut left, *group, is_left);
    }
    left
}

// The groups of the member, but for those of the other entry where it is the same member's.
fn left_of<E: Ord + Copy>(
    groups: &DeviceArray,
    member: E,
    other: &Option<(DeviceArray, E)>,
) -> DeviceArray
    ensures { result ≡ left_of E.cmp groups.now member other.now }
{
    match other {
        None => *groups,
        Some((others, same)) => {
            if member.cmp(same).is_eq() {
                without(groups, others.as_slice())
            } else {
                *groups
            }
        }
    }
}

/// The first entry, but where it is the second too.
pub(crate) fn leaving_but<E: Ord + Copy>(
    before: &Option<(DeviceArray, E)>,
    after: &Option<(DeviceArray, E)>,
) -> Option<(DeviceArray, E)>
    ensures { LeavesBut E.cmp before.now after.now result }
{
    match before {
        None => None,
        Some((groups, member)) => Some((left_of(groups, *member, after), *member)),
    }
}

// The entry is this member, in the set of the group.
fn is_swap_entry<E: Ord + Copy>(
    entry: &Option<(SingleGroup, E)>,
    group: DeviceId,
    member: E,
) -> bool
    ensures { result ≡ is_swap_entry E.cmp entry.now group member }
{
    match entry {
        None => false,
        Some((alone, same)) => alone.group() == group && same.cmp(&member).is_eq(),
    }
}

/// The first entry, but where it is the second too.
pub(crate) fn leaving_alone<E: Ord + Copy>(
    before: &Option<(SingleGroup, E)>,
    after: &Option<(SingleGroup, E)>,
) -> Option<(SingleGroup, E)>
    ensures { LeavesBut E.cmp before.now after.now result }
{
    match before {
        None => None,
        Some((alone, member)) => {
            if is_swap_entry(after, alone.group(), *member) {
                None
            } else {
                *before
            }
        }
    }
}

/// The entry, if it is added.
pub(crate) fn only<E: Copy>(entry: &Option<E>, taken: bool) -> Option<E>
    ensures { result ≡ (if taken then entry.now else None) }
{
    if taken { *entry } else { None }
}

// Puts the entry into its set, and gives what is to be removed to undo it.
fn enter_alone<E: Ord + Copy>(
    sets: &mut BTreeMap<DeviceId, BTreeSet<E>>,
    entry: &Option<(SingleGroup, E)>,
) -> Result<Option<(SingleGroup, E)>, AllocError>
    ensures ok { OnOk result (Enters E.cmp sets.old sets.new entry.now) }
    ensures undo { IfOk result (Undoes E.cmp sets.old sets.new) }
    ensures err { OnErr result (Stays nat_cmp E.cmp sets.old sets.new) }
{
    match entry {
        None => Ok(None),
        Some((alone, member)) => {
            let new = enter(sets, alone.group(), *member)?;
            Ok(only(entry, new))
        }
    }
}

// Takes the entry out of its set.
fn leave_alone<E: Ord + Copy>(
    sets: &mut BTreeMap<DeviceId, BTreeSet<E>>,
    entry: &Option<(SingleGroup, E)>,
)
    ensures { Leaves E.cmp sets.old sets.new entry.now }
{
    if let Some((alone, member)) = entry {
        leave(sets, alone.group(), *member);
    }
}

// Puts the entry into its sets, and gives what is to be removed to undo it.
fn enter_entry<E: Ord + Copy>(
    sets: &mut BTreeMap<DeviceId, BTreeSet<E>>,
    entry: &Option<(DeviceArray, E)>,
) -> Result<Option<(DeviceArray, E)>, AllocError>
    ensures ok { OnOk result (Enters E.cmp sets.old sets.new entry.now) }
    ensures undo { IfOk result (Undoes E.cmp sets.old sets.new) }
    ensures err { OnErr result (Stays nat_cmp E.cmp sets.old sets.new) }
{
    match entry {
        None => Ok(None),
        Some((groups, member)) => {
            let entered = enter_all(sets, groups.as_slice(), *member)?;
            Ok(Some((entered, *member)))
        }
    }
}

// Takes the entry out of its sets.
fn leave_entry<E: Ord + Copy>(
    sets: &mut BTreeMap<DeviceId, BTreeSet<E>>,
    entry: &Option<(DeviceArray, E)>,
)
    ensures { Leaves E.cmp sets.old sets.new entry.now }
{
    if let Some((groups, member)) = entry {
        leave_all(sets, groups.as_slice(), *member);
    }
}
