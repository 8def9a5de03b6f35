//! Records with a key, the one at a key, and lists in the order of keys.

ghost use Rattle.std.specs.Prelude.{◌≡◌};
ghost use Rattle.acd_terms.specs.Lists.{find_by, ascends};

use crate::id::{AgentId, DeviceId};
use crate::record::{
    AgentRecord, CallRecord, ConnectionRecord, GroupRecord, MonitorRecord, StationRecord,
};
use std::hash::Hash;

/// A record with a key. Keys that compare equal are equal.
pub trait Keyed: Copy {
    type Key: Ord + Hash + Copy;

    ghost key_of: { Self → Self.Key };

    fn key(&self) -> Self::Key
        ensures { result ≡ key_of self.now };

    ghost use Rattle.std.proofs.lemmas.Map.Lookups.{CmpEqualImpliesEq};

    ghost exact: { CmpEqualImpliesEq Self.Key.cmp };
}

impl Keyed for GroupRecord {
    type Key = DeviceId;

    ghost key_of = { λ r. r.device };

    ghost use Rattle.std.proofs.lemmas.Map.Lookups.{exact_unsigned};

    ghost exact = { exact_unsigned };

    fn key(&self) -> DeviceId {
        self.device
    }
}

impl Keyed for StationRecord {
    type Key = DeviceId;

    ghost key_of = { λ r. r.device };

    ghost use Rattle.std.proofs.lemmas.Map.Lookups.{exact_unsigned};

    ghost exact = { exact_unsigned };

    fn key(&self) -> DeviceId {
        self.device
    }
}

impl Keyed for AgentRecord {
    type Key = AgentId;

    ghost key_of = { λ r. r.agent };

    ghost use Rattle.std.proofs.lemmas.Map.Lookups.{exact_unsigned};

    ghost exact = { exact_unsigned };

    fn key(&self) -> AgentId {
        self.agent
    }
}

impl Keyed for CallRecord {
    type Key = u64;

    ghost key_of = { λ r. r.call };

    ghost use Rattle.std.proofs.lemmas.Map.Lookups.{exact_unsigned};

    ghost exact = { exact_unsigned };

    fn key(&self) -> u64 {
        self.call
    }
}

impl Keyed for ConnectionRecord {
    type Key = (u64, DeviceId);

    ghost key_of = { λ r. (r.call, r.device) };

    ghost use Rattle.std.specs.Ordering.{nat_cmp};
    ghost use Rattle.std.proofs.lemmas.Map.Lookups.{exact_unsigned, exact_pairs};

    ghost exact = { exact_pairs nat_cmp nat_cmp exact_unsigned exact_unsigned };

    fn key(&self) -> (u64, DeviceId) {
        (self.call, self.device)
    }
}

impl Keyed for MonitorRecord {
    type Key = u64;

    ghost key_of = { λ r. r.monitor };

    ghost use Rattle.std.proofs.lemmas.Map.Lookups.{exact_unsigned};

    ghost exact = { exact_unsigned };

    fn key(&self) -> u64 {
        self.monitor
    }
}

/// The first of the records at the key.
pub fn find<R: Keyed>(records: &[R], key: R::Key) -> Option<R>
    ensures { result ≡ find_by (λ x. R.Key.cmp key (R.key_of x)) records.now }
{
    for x in records {
        if key.cmp(&x.key()).is_eq() {
            return Some(*x);
        }
    }
    None
}

/// Each record is before the next.
pub fn ascends<R: Keyed>(records: &[R]) -> bool
    ensures { result ≡ ascends (λ x y. R.Key.cmp (R.key_of x) (R.key_of y)) records.now }
{
    for i in 1..records.len() {
        if !records[i - 1].key().cmp(&records[i].key()).is_lt() {
            return false;
        }
    }
    true
}
