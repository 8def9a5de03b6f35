//! The groups of an agent, and those that a log-on names.

ghost use Rattle.std.specs.Prelude.{◌≡◌, ◌↔◌, ◌<◌, ◌≤◌, [], ◌∷◌, length, true, IsTrue, nat_eq};
ghost use Rattle.std.specs.Ordering.{nat_cmp};
ghost use Rattle.std.specs.Cmp.{partial_equiv_from_equiv, nat_eq_equiv};
ghost use Rattle.std.specs.Cmp.Lexicographic.{pointwise, lists_equiv};
ghost use Rattle.acd_terms.specs.Lists.{ascends, put_by};
ghost use Rattle.acd_terms.specs.Groups.{is_one_of, is_choice, least_group, further_groups, only_group, with_one_more, with_all, some_of};

use crate::device_array::DeviceArray;
use crate::id::DeviceId;
use std::marker::Model;

/// At most eight devices in ascending number.
#[derive(Clone, Copy, Debug)]
pub struct Groups {
    list: DeviceArray,
}

impl Model for Groups {
    ghost use Rattle.std.specs.Prelude.{◌≡◌, ℕ, List, true};
    ghost use Rattle.std.specs.Ordering.{nat_cmp};
    ghost use Rattle.acd_terms.specs.Lists.{ascends};

    ghost Value = { List ℕ };

    ghost view = { λ g. g.list };

    ghost invariant = { λ g. ascends nat_cmp g.list ≡ true };

    ghost inverse = { λ gs. record { list = gs } };
}

impl Groups {
    pub fn none() -> Groups
        ensures { result ≡ [] }
    {
        Groups {
            list: DeviceArray::none(),
        }
    }

    pub fn one(group: DeviceId) -> Groups
        ensures { result ≡ group ∷ [] }
    {
        Groups {
            list: DeviceArray::one(group),
        }
    }

    /// Those of a list in any order. None where one is there twice, or more than eight are.
    pub fn in_order(devices: &[DeviceId]) -> Option<Groups>
        ensures { result ≡ with_all [] devices.now }
    {
        let mut groups = Groups::none();
        for device in devices {
            groups = groups.with(*device)?;
        }
        Some(groups)
    }

    pub fn as_slice(&self) -> &[DeviceId]
        ensures value { result.now ≡ self.now }
        ensures ascending { ascends nat_cmp self.now ≡ true }
        ensures few { length self.now ≤ 8 }
    {
        self.list.as_slice()
    }

    /// The same devices.
    pub fn to_few(&self) -> DeviceArray
        ensures { result ≡ self.now }
    {
        self.list
    }

    /// The one of least number.
    pub fn least(&self) -> Option<DeviceId>
        ensures { result ≡ least_group self.now }
    {
        match self.as_slice() {
            [] => None,
            [least, ..] => Some(*least),
        }
    }

    /// All but the one of least number.
    pub fn further(&self) -> &[DeviceId]
        ensures { result.now ≡ further_groups self.now }
    {
        match self.as_slice() {
            [] => &[],
            [_, further @ ..] => further,
        }
    }

    /// The one, where there is just one.
    pub fn only(&self) -> Option<DeviceId>
        ensures { result ≡ only_group self.now }
    {
        match self.as_slice() {
            [only] => Some(*only),
            _ => None,
        }
    }

    pub fn is_empty(&self) -> bool
        ensures { IsTrue result ↔ (self.now ≡ []) }
    {
        self.as_slice().is_empty()
    }

    pub fn contains(&self, group: DeviceId) -> bool
        ensures { result ≡ is_one_of self.now group }
    {
        self.as_slice().iter().any(|g| *g == group)
    }

    /// With one more. None where it is there already, or eight are.
    #[tactic(auto, unfolding(crate::specs::Groups::with_one_more))]
    pub fn with(&self, group: DeviceId) -> Option<Groups>
        ensures { result ≡ with_one_more self.now group }
    {
        if self.list.len() >= 8 || self.contains(group) {
            return None;
        }
        Some(Groups {
            list: put(self.as_slice(), group),
        })
    }
}

// The device in its place among others.
fn put(others: &[DeviceId], group: DeviceId) -> DeviceArray
    requires { length others.now < 8 }
    ensures { result ≡ put_by (nat_cmp group) others.now group }
{
    let mut list = DeviceArray::none();
    let mut placed = false;
    for other in others {
        if !placed && group <= *other {
            placed = true;
            if group < *other {
                list.push(group);
            }
        }
        list.push(*other);
    }
    if !placed {
        list.push(group);
    }
    list
}

impl PartialEq for Groups {
    ghost eq = { pointwise nat_eq };

    ghost laws = { partial_equiv_from_equiv (lists_equiv nat_eq_equiv) };

    fn eq(&self, other: &Groups) -> bool {
        self.as_slice() == other.as_slice()
    }
}

impl Eq for Groups {
    ghost laws = { lists_equiv nat_eq_equiv };
}

/// One to eight devices in ascending number.
#[derive(Clone, Copy, Debug)]
pub struct SomeGroups {
    groups: Groups,
}

impl Model for SomeGroups {
    ghost use Rattle.std.specs.Prelude.{◌≡◌, ℕ, List, true};
    ghost use Rattle.acd_terms.specs.Groups.{is_choice};

    ghost Value = { List ℕ };

    ghost view = { λ s. s.groups };

    ghost invariant = { λ s. is_choice s.groups ≡ true };

    ghost inverse = { λ gs. record { groups = gs } };
}

impl SomeGroups {
    pub fn one(group: DeviceId) -> SomeGroups
        ensures { result ≡ group ∷ [] }
    {
        SomeGroups {
            groups: Groups::one(group),
        }
    }

    /// None where there are none.
    pub fn of(groups: Groups) -> Option<SomeGroups>
        ensures { result ≡ some_of groups }
    {
        match groups.as_slice() {
            [] => None,
            [_, ..] => Some(SomeGroups { groups }),
        }
    }

    pub fn groups(self) -> Groups
        ensures value { result ≡ self }
        ensures choice { is_choice self ≡ true }
    {
        self.groups
    }
}

impl PartialEq for SomeGroups {
    ghost eq = { pointwise nat_eq };

    ghost laws = { partial_equiv_from_equiv (lists_equiv nat_eq_equiv) };

    fn eq(&self, other: &SomeGroups) -> bool {
        self.groups == other.groups
    }
}

impl Eq for SomeGroups {
    ghost laws = { lists_equiv nat_eq_equiv };
}
