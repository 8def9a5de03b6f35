//! Why bytes are not read as a plan.

ghost use Rattle.std.specs.Prelude.{◌≡◌};
ghost use Rattle.acd_reports.specs.PlanRows.{plan_member_name};
ghost use Rattle.acd_reports.specs.declared.fault.PlanFault.TheVariants.{NoMemory};

use std::alloc::AllocError;
use thiserror::Error;

/// The faulty part in a row of a plan.
#[derive(Clone, Copy, Debug, PartialEq, Eq)]
pub enum PlanMember {
    /// The row has more or fewer than five fields, or they are no text.
    Fields,
    Kind,
    Number,
    Name,
    Ring,
    Wrap,
}

impl PlanMember {
    /// The name as it is written.
    pub fn name(self) -> &'static str
        ensures { result.now ≡ plan_member_name self }
    {
        match self {
            PlanMember::Fields => "fields",
            PlanMember::Kind => "kind",
            PlanMember::Number => "number",
            PlanMember::Name => "name",
            PlanMember::Ring => "ring",
            PlanMember::Wrap => "wrap",
        }
    }
}

/// Why bytes are not read as a plan.
#[derive(Clone, Copy, Debug, PartialEq, Eq, Error)]
pub enum PlanFault {
    #[error("plan too long")]
    TooLong,
    /// The first record does not name the columns.
    #[error("plan header")]
    Header,
    /// The first faulty row, counted from 1, and its first faulty member.
    #[error("plan row {row}: {}", .member.name())]
    Row { row: u64, member: PlanMember },
    #[error("no memory")]
    NoMemory,
}

impl From<AllocError> for PlanFault {
    ghost from_gives = { λ _ fault. fault ≡ NoMemory };

    fn from(_error: AllocError) -> PlanFault {
        PlanFault::NoMemory
    }
}
