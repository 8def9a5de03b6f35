//! One group, seen as a list.

ghost use Rattle.std.specs.Prelude.{◌≡◌, [], ◌∷◌};

use acd_terms::DeviceId;
use std::marker::Model;

/// One group, seen as a list, as the groups of an agent are.
#[derive(Clone, Copy)]
pub struct SingleGroup {
    group: DeviceId,
}

impl Model for SingleGroup {
    ghost use Rattle.std.specs.Prelude.{ℕ, List, [], ◌∷◌};
    ghost use Rattle.acd_tables.specs.SingleGroups.{first_or_none};

    ghost Value = { List ℕ };

    ghost view = { λ a. a.group ∷ [] };

    ghost inverse = { λ gs. record { group = first_or_none gs } };
}

impl SingleGroup {
    pub(crate) fn new(group: DeviceId) -> SingleGroup
        ensures { result ≡ group ∷ [] }
    {
        SingleGroup { group }
    }

    pub(crate) fn group(&self) -> DeviceId
        ensures { self.now ≡ result ∷ [] }
    {
        self.group
    }
}
