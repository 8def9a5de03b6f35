//! What a book remembers beside its database.

ghost use Rattle.acd_sqlbook.specs.Caches.{IsBlank};

use crate::ahead::Ahead;
use crate::index::Index;
use acd_sql_columns::Meta;
use std::alloc::Global;

/// Which events are at the devices of the running monitors, where that is known, kept records that were read ahead, and
/// the limits and the counters of the last commit, where it succeeded.
#[derive(Drop)]
pub(crate) struct Cache {
    pub(crate) index: Option<Index>,
    pub(crate) ahead: Ahead,
    pub(crate) counters: Option<Meta>,
}

impl Cache {
    /// Nothing is remembered yet.
    pub(crate) fn blank(alloc: Global) -> Cache
        ensures { IsBlank result }
    {
        Cache {
            index: None,
            ahead: Ahead::none(alloc),
            counters: None,
        }
    }

    /// Forgets all.
    pub(crate) fn forget(&mut self)
        ensures { IsBlank self.new }
    {
        self.index = None;
        self.ahead.forget();
        self.counters = None;
    }
}
