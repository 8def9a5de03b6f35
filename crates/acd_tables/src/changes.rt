//! Changes of one record that keep the indexes.

ghost use Rattle.std.specs.Prelude.{◌≡◌, length, OnOk, OnErr};
ghost use Rattle.acd_model.specs.Scans.{connection_of, queued_in_all};
ghost use Rattle.acd_model.specs.Writes.{with_group, with_agent, with_connection, without_connection};
ghost use Rattle.acd_tables.specs.IndexedRows.{IsIndexed, offer_cmp};
ghost use Rattle.acd_tables.specs.Swaps.{IsAt, with_or_without, one_queued, has_rank, loses_rank};
ghost use Rattle.acd_tables.specs.Sets.{SameKeysBut};

use crate::indexes::{Indexes, OfferKey, may_offer, offer_key};
use crate::indexing::{put_listed, put_seated, rings};
use crate::lines::unlist;
use crate::records::Records;
use crate::sets::{add_set, insert_if, remove_if};
use crate::single_group::SingleGroup;
use crate::swaps::{agent_swap, connection_swap};
use acd_terms::{AgentRecord, ConnectionRecord, DeviceArray, DeviceId, GroupRecord, Priority};
use std::alloc::{AllocError, Global};
use std::collections::BTreeSet;

/// Puts the group. A new one gets its two sets before, and one that has an offer its place by its priority,
/// where that is new.
pub(crate) fn put_group(
    alloc: Global,
    records: &mut Records,
    indexes: &mut Indexes,
    item: GroupRecord,
) -> Result<(), AllocError>
    requires { IsIndexed records.old indexes.old }
    ensures indexed { IsIndexed records.new indexes.new }
    ensures ok { OnOk result (records.new ≡ with_group records.old item) }
    ensures err { OnErr result (records.new ≡ records.old) }
{
    let old = records.group(item.device);
    if has_rank(&old, item.priority) {
        return records.put_group(item);
    }
    add_set(alloc, &mut indexes.queues, item.device)?;
    add_set(alloc, &mut indexes.ready, item.device)?;
    let offers = may_offer(&indexes.queues, &indexes.ready, item.device);
    insert_if(&mut indexes.offering, offer_key(&item), offers)?;
    records.put_group(item)?;
    forget_rank(&mut indexes.offering, &old, item.priority);
    Ok(())
}

// The group is there, at the priority.
fn has_rank(group: &Option<GroupRecord>, priority: Priority) -> bool
    ensures { result ≡ has_rank group.now priority }
{
    match group {
        None => false,
        Some(group) => group.priority == priority,
    }
}

// The group is no longer among those of its priority of before, where that is another.
fn forget_rank(offering: &mut BTreeSet<OfferKey>, old: &Option<GroupRecord>, priority: Priority)
    ensures { SameKeysBut offer_cmp (loses_rank old.now priority) offering.old offering.new }
{
    if let Some(old) = old {
        remove_if(offering, offer_key(old), old.priority != priority);
    }
}

/// Puts the agent. One whose station another agent has is refused as if there were no memory.
pub(crate) fn put_agent(
    records: &mut Records,
    indexes: &mut Indexes,
    item: &AgentRecord,
) -> Result<(), AllocError>
    requires { IsIndexed records.old indexes.old }
    ensures indexed { IsIndexed records.new indexes.new }
    ensures ok { OnOk result (records.new ≡ with_agent records.old item.now) }
    ensures err { OnErr result (records.new ≡ records.old) }
{
    let (_few, _alone) = (DeviceArray::none(), None::<SingleGroup>);
    let old = records.agent(item.agent);
    let swap = agent_swap(records, indexes, &old, item);
    let undo = indexes.enter(records, &swap.entering)?;
    match put_seated(
        records,
        &mut indexes.seats,
        &mut indexes.working,
        &old,
        item,
    ) {
        Ok(()) => {
            indexes.settle(records, &swap);
            Ok(())
        }
        Err(error) => {
            indexes.take_out(records, &undo);
            Err(error)
        }
    }
}

fn one_queued(connection: &Option<ConnectionRecord>) -> usize
    ensures { result ≡ one_queued connection.now }
{
    match connection {
        None => 0,
        Some(c) => { if c.state.is_queued() { 1 } else { 0 } }
    }
}

// How many are queued once the connection of the call at the device is put, or removed.
fn queued_after(
    records: &Records,
    indexes: &Indexes,
    call: u64,
    device: DeviceId,
    old: &Option<ConnectionRecord>,
    new: &Option<ConnectionRecord>,
) -> usize
    requires indexed { IsIndexed records.now indexes.now }
    requires found { old.now ≡ connection_of records.now call device }
    requires at { IsAt call device new.now }
    ensures { result ≡ length (queued_in_all (with_or_without records.now call device new.now)) }
{
    let _ = records.connection_count();
    let before = one_queued(old);
    let after = one_queued(new);
    indexes.queued - before + after
}

/// Puts the connection.
pub(crate) fn put_connection(
    records: &mut Records,
    indexes: &mut Indexes,
    item: &ConnectionRecord,
) -> Result<(), AllocError>
    requires { IsIndexed records.old indexes.old }
    ensures indexed { IsIndexed records.new indexes.new }
    ensures ok { OnOk result (records.new ≡ with_connection records.old item.now) }
    ensures err { OnErr result (records.new ≡ records.old) }
{
    let (_few, _alone) = (DeviceArray::none(), None::<SingleGroup>);
    let (call, device) = (item.call, item.device);
    let old = records.connection(call, device);
    let new = Some(*item);
    let swap = connection_swap(records, indexes, call, device, &old, &new);
    let queued = queued_after(records, indexes, call, device, &old, &new);
    let undo = indexes.enter(records, &swap.entering)?;
    match put_listed(
        records,
        &mut indexes.lines,
        &mut indexes.ringing,
        &old,
        item,
    ) {
        Ok(()) => {
            indexes.settle(records, &swap);
            indexes.queued = queued;
            Ok(())
        }
        Err(error) => {
            indexes.take_out(records, &undo);
            Err(error)
        }
    }
}

/// Removes the connection. The agent at the device may be ready for an offer then, which takes memory.
pub(crate) fn remove_connection(
    records: &mut Records,
    indexes: &mut Indexes,
    call: u64,
    device: DeviceId,
) -> Result<(), AllocError>
    requires { IsIndexed records.old indexes.old }
    ensures indexed { IsIndexed records.new indexes.new }
    ensures ok { OnOk result (records.new ≡ without_connection records.old call device) }
    ensures err { OnErr result (records.new ≡ records.old) }
{
    let (_few, _alone) = (DeviceArray::none(), None::<SingleGroup>);
    let old = records.connection(call, device);
    let swap = connection_swap(records, indexes, call, device, &old, &None);
    let queued = queued_after(records, indexes, call, device, &old, &None);
    indexes.enter(records, &swap.entering)?;
    records.remove_connection(call, device);
    remove_if(&mut indexes.ringing, (call, device), rings(&old));
    unlist(&mut indexes.lines, device, call, true);
    indexes.settle(records, &swap);
    indexes.queued = queued;
    Ok(())
}
