//! The answers of a desk to an arrival.

use crate::fault::DeskFault;
use acd_book::Text;

/// The answer to one arrival.
#[derive(Debug, Drop, PartialEq, Eq)]
pub enum Taken {
    /// The reply, which is kept: the status, as of HTTP, and the JSON.
    Reply { status: u16, body: Text },
    /// The key is kept with another request.
    InvokeReused,
    /// The key is new, and as many requests were executed as may be.
    DeskFull,
    /// Nothing has changed.
    NoMemory,
    /// The store has failed: the request was executed or not, and the desk answers nothing else.
    StoreFault,
}

impl From<DeskFault> for Taken {
    ghost use Rattle.std.specs.Prelude.{◌≡◌};
    ghost use Rattle.acd_desk.specs.Desks.Faults.{taken_by};

    ghost from_gives = { λ fault taken. taken ≡ taken_by fault };

    fn from(fault: DeskFault) -> Taken {
        match fault {
            DeskFault::NoMemory => Taken::NoMemory,
            DeskFault::StoreFault => Taken::StoreFault,
        }
    }
}
