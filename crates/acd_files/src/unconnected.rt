//! Files to which no connection was made.

ghost use Rattle.std.specs.Prelude.{◌≡◌};

use crate::fault::PathFault;
use sqlite_disk::{Disk, Files};

/// Files that were opened, and why the store made no connection to them. Nothing can be done with them but to shut them.
#[derive(Drop)]
pub(crate) struct Unconnected<'a, D: Disk + Drop> {
    fault: PathFault<'a>,
    files: Files<D>,
}

impl<'a, D: Disk + Drop> Unconnected<'a, D> {
    pub(crate) fn new(fault: PathFault<'a>, files: Files<D>) -> Unconnected<'a, D>
        ensures { result.files ≡ files }
    {
        Unconnected { fault, files }
    }

    /// Shuts them, and says why.
    pub(crate) fn into_fault(self) -> PathFault<'a>
        ensures { result ≡ self.entry.fault }
    {
        self.fault
    }
}
