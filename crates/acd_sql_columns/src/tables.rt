//! The tables of the book.

/// A table of the book.
#[derive(Clone, Copy, Debug, PartialEq, Eq)]
pub enum Table {
    Meta,
    Groups,
    Stations,
    Agents,
    Calls,
    Connections,
    Monitors,
    Events,
    Kept,
    AgentGroups,
    GroupPriority,
}

/// The version of a book's tables.
#[derive(Clone, Copy, PartialEq, Eq)]
pub enum Version {
    /// The nine tables up to `kept`.
    First,
    /// All eleven.
    Second,
}

/// A table that grows with the history, and is read in pages.
#[derive(Clone, Copy)]
pub enum Log {
    Events,
    Kept,
}
