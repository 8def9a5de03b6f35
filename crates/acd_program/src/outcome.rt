//! What comes of a prune.

use crate::auditing::Finding;
use acd_log::Ending;

/// A place: the last stamp and the last event number that go.
#[derive(Clone, Copy)]
pub(crate) struct Cut {
    pub(crate) stamp: u64,
    pub(crate) number: u64,
    /// More may go than goes at once.
    pub(crate) is_part: bool,
}

/// What comes of a prune.
#[derive(Clone, Copy)]
pub(crate) enum Pruning {
    /// Nothing goes, since the audit with the archive found this, and the log of the file ended so before.
    Refused(Finding, Ending),
    /// There is nothing to prune.
    Nothing,
    /// All up to this place goes.
    UpTo(Cut),
}
