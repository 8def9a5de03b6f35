//! Why rows are refused.

ghost use Rattle.std.specs.Prelude.{◌≡◌};
ghost use Rattle.acd_switch.specs.declared.row_fault.RowFault.TheVariants.{NoMemory};

use acd_terms::Rule;
use std::alloc::AllocError;
use thiserror::Error;

/// Why rows make no switch.
#[derive(Clone, Copy, Debug, PartialEq, Eq, Error)]
pub enum RowFault {
    /// The first rule that they break.
    #[error("the rows break the rule {0:?}")]
    Broken(Rule),
    #[error("out of memory")]
    NoMemory,
}

impl From<AllocError> for RowFault {
    ghost from_gives = { λ _ e. e ≡ NoMemory };

    fn from(_fault: AllocError) -> Self {
        RowFault::NoMemory
    }
}
