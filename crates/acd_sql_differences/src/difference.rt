//! The changes from the records that are held to new ones.

ghost use Rattle.std.specs.Prelude.{◌≡◌, ◌++◌, option_to_list, IfSome, IfOk, OnOk};
ghost use Rattle.acd_sql_differences.specs.DifferenceSteps.{keyed, AreDifferences, Changes, IsShorter, IsTurn};
ghost use Rattle.acd_sql_differences.specs.ChangeOrder.{agent_changes, call_changes, connection_changes, group_changes, monitor_changes, station_changes};

use acd_model::Change;
use acd_terms::{
    AgentRecord, CallRecord, ConnectionRecord, GroupRecord, Keyed, MonitorRecord, StationRecord,
};
use std::alloc::{AllocError, Global};
use std::cmp::Ordering;

/// A record of a working table, and the changes that put it and that take it out.
pub trait TableRecord: Keyed + PartialEq {
    ghost changes: { Changes Self };

    fn put(&self) -> Change
        ensures { result ≡ changes.put self.now };

    /// [`Change::Nothing`] for groups, stations and agents, which are never removed.
    fn gone(&self) -> Change
        ensures { result ≡ changes.gone self.now };
}

impl TableRecord for GroupRecord {
    ghost changes = { group_changes };

    fn put(&self) -> Change {
        Change::PutGroup(*self)
    }

    fn gone(&self) -> Change {
        Change::Nothing
    }
}

impl TableRecord for StationRecord {
    ghost changes = { station_changes };

    fn put(&self) -> Change {
        Change::PutStation(*self)
    }

    fn gone(&self) -> Change {
        Change::Nothing
    }
}

impl TableRecord for AgentRecord {
    ghost changes = { agent_changes };

    fn put(&self) -> Change {
        Change::PutAgent(*self)
    }

    fn gone(&self) -> Change {
        Change::Nothing
    }
}

impl TableRecord for CallRecord {
    ghost changes = { call_changes };

    fn put(&self) -> Change {
        Change::PutCall(*self)
    }

    fn gone(&self) -> Change {
        Change::RemoveCall(self.call)
    }
}

impl TableRecord for ConnectionRecord {
    ghost changes = { connection_changes };

    fn put(&self) -> Change {
        Change::PutConnection(*self)
    }

    fn gone(&self) -> Change {
        Change::RemoveConnection(self.call, self.device)
    }
}

impl TableRecord for MonitorRecord {
    ghost changes = { monitor_changes };

    fn put(&self) -> Change {
        Change::PutMonitor(*self)
    }

    fn gone(&self) -> Change {
        Change::RemoveMonitor(self.monitor)
    }
}

// The change at the first key, if there is one, and what is left of both lists.
fn turn<'a, R: TableRecord>(
    held: &'a [R],
    new: &'a [R],
) -> Option<(Option<Change>, &'a [R], &'a [R])>
    ensures leads { IsTurn (keyed R.key_of R.Key.cmp R.eq R.changes) held.now new.now result }
    ensures shorter { IfSome result (IsShorter held.now new.now) }
{
    match (held.split_first(), new.split_first()) {
        (None, None) => None,
        (Some((x, left)), None) => Some((Some(x.gone()), left, new)),
        (None, Some((y, rest))) => Some((Some(y.put()), held, rest)),
        (Some((x, left)), Some((y, rest))) => match x.key().cmp(&y.key()) {
            Ordering::Less => Some((Some(x.gone()), left, new)),
            Ordering::Equal if y == x => Some((None, left, rest)),
            Ordering::Equal => Some((Some(y.put()), left, rest)),
            Ordering::Greater => Some((Some(y.put()), held, rest)),
        },
    }
}

// A separate push, for any type.
fn push_if_some<T: Copy + Drop>(list: &mut Vec<T>, one: Option<T>) -> Result<(), AllocError>
    ensures { OnOk result (list.new.items ≡ list.old.items ++ option_to_list one) }
{
    if let Some(one) = one {
        list.push(one)?;
    }
    Ok(())
}

/// The changes from the records that are held to new ones, both in ascending key: each key of `held` that is missing in
/// `new` and each record of `new` that isn't equally in `held`, in ascending key, and nothing else.
///
/// A group, a station and an agent are never removed: [`Change::Nothing`] names one that is missing.
pub fn row_changes<R: TableRecord>(
    alloc: Global,
    held: &[R],
    new: &[R],
) -> Result<Vec<Change>, AllocError>
    ensures { IfOk result
        (AreDifferences (keyed R.key_of R.Key.cmp R.eq R.changes) held.now new.now) }
{
    let mut changes = Vec::new(alloc);
    let mut left = held;
    let mut rest = new;
    while let Some((change, held_rest, next)) = turn(left, rest) {
        push_if_some(&mut changes, change)?;
        left = held_rest;
        rest = next;
    }
    Ok(changes)
}
