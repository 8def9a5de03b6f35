//! The state of its book that a desk has in memory.

ghost use Rattle.std.specs.Prelude.{◌≡◌, IfOk, IfErr, OnOk};
ghost use Rattle.acd_model.specs.Rules.First.{BreaksNoRule};
ghost use Rattle.acd_switch.specs.RowFaults.{IsFaultOf};

use acd_switch::{RowFault, Switch};
use acd_terms::Rows;
use std::alloc::{AllocError, Global};

/// A switch whose rows break no rule. The desk moves it out for each request, and so it is in a box.
#[derive(Drop)]
pub(crate) struct LoadedSwitch {
    pub(crate) switch: Box<Switch>,
    ghost rules: { BreaksNoRule switch.value },
}

impl LoadedSwitch {
    /// A switch of these rows, where they break no rule.
    pub(crate) fn from_rows(alloc: Global, rows: &Rows) -> Result<Self, RowFault>
        ensures ok { IfOk result (λ loaded. loaded.switch.value ≡ rows.now) }
        ensures sound { OnOk result (BreaksNoRule rows.now) }
        ensures err { IfErr result (IsFaultOf rows.now) }
    {
        let switch = Switch::from_rows(alloc, rows)?;
        let switch = Box::new(alloc, switch).map_err(AllocError::from)?;
        Ok(LoadedSwitch { switch })
    }
}

/// The state that a desk has in memory.
#[derive(Drop)]
pub(crate) enum Working {
    /// The state of the book.
    Loaded(LoadedSwitch),
    /// Nothing: the next request that needs the switch loads it.
    Unloaded,
    /// Nothing, and nothing is asked of the book any more.
    Failed,
}
