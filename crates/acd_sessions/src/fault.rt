//! Why a desk did not do what it was asked.

ghost use Rattle.std.specs.Prelude.{◌≡◌};
ghost use Rattle.acd_sessions.specs.Names.{table_name, rule_name};

use acd_book::BookFault;
use acd_desk::{AuditFault, DeskFault, OpenFault};
use acd_io::Stopped;
use acd_lines::LinesFault;
use acd_sqlbook::{AdoptFault, Table};
use acd_terms::Rule;
use std::alloc::AllocError;
use thiserror::Error;

/// Why a desk did not do what it was asked, or the database below it didn't.
#[derive(Clone, Copy, Debug, Error)]
pub enum WorkFault {
    /// The version of the file's tables, or 0 where it has none.
    #[error("wrong version {0}")]
    WrongVersion(u64),
    /// A table of the file with a value that is out of its range.
    #[error("bad row in {name}", name = table_name(*.0))]
    BadRow(Table),
    /// The first rule that the rows of the file break.
    #[error("bad rows: {name}", name = rule_name(*.0))]
    BadRows(Rule),
    #[error("no memory")]
    NoMemory,
    #[error("store fault")]
    Store,
    #[error("cannot read")]
    Read,
    #[error("cannot write")]
    Write,
    /// The address of a service is in use, or isn't given to this program.
    #[error("cannot listen")]
    CannotListen,
    /// The lines of a standby ended without the order to serve.
    #[error("not told to serve")]
    NotTold,
    /// A prune found no place that the archive has, and at which the moment changes.
    #[error("no place to prune at")]
    NoPlace,
}

// The table's name in the file.
fn table_name(table: Table) -> &'static str
    ensures { result.now ≡ table_name table }
{
    match table {
        Table::Meta => "meta",
        Table::Groups => "acd_groups",
        Table::Stations => "stations",
        Table::Agents => "agents",
        Table::Calls => "calls",
        Table::Connections => "connections",
        Table::Monitors => "monitors",
        Table::Events => "events",
        Table::Kept => "kept",
        Table::AgentGroups => "agent_groups",
        Table::GroupPriority => "group_priority",
    }
}

// The first word of the rule.
fn rule_name(rule: Rule) -> &'static str
    ensures { result.now ≡ rule_name rule }
{
    match rule {
        Rule::Limits => "limits",
        Rule::Order => "order",
        Rule::Device => "device",
        Rule::Agent => "agent",
        Rule::Call => "call",
        Rule::Connection => "connection",
        Rule::Parties => "parties",
        Rule::Live => "live",
        Rule::Occupied => "occupied",
        Rule::Counters => "counters",
        Rule::Offer => "offer",
        Rule::Monitor => "monitor",
        Rule::Balance => "balance",
    }
}

impl From<AllocError> for WorkFault {
    ghost use Rattle.std.specs.Prelude.{◌≡◌};
    ghost use Rattle.acd_sessions.specs.declared.fault.WorkFault.TheVariants.{NoMemory};

    ghost from_gives = { λ _ fault. fault ≡ NoMemory };

    fn from(_: AllocError) -> WorkFault {
        WorkFault::NoMemory
    }
}

impl From<Stopped> for WorkFault {
    ghost use Rattle.std.specs.Prelude.{◌≡◌};
    ghost use Rattle.acd_sessions.specs.declared.fault.WorkFault.TheVariants.{Write};

    ghost from_gives = { λ _ fault. fault ≡ Write };

    fn from(_: Stopped) -> WorkFault {
        WorkFault::Write
    }
}

impl From<BookFault> for WorkFault {
    ghost use Rattle.std.specs.Prelude.{◌≡◌};
    ghost use Rattle.acd_sessions.specs.Faults.{book_fault};

    ghost from_gives = { λ why fault. fault ≡ book_fault why };

    fn from(fault: BookFault) -> WorkFault {
        match fault {
            BookFault::NoMemory => WorkFault::NoMemory,
            BookFault::Store => WorkFault::Store,
        }
    }
}

impl From<AdoptFault> for WorkFault {
    ghost use Rattle.std.specs.Prelude.{◌≡◌};
    ghost use Rattle.acd_sessions.specs.Faults.{adopt_fault};

    ghost from_gives = { λ why fault. fault ≡ adopt_fault why };

    fn from(fault: AdoptFault) -> WorkFault {
        match fault {
            AdoptFault::WrongVersion(version) => WorkFault::WrongVersion(version),
            AdoptFault::BadRow(table) => WorkFault::BadRow(table),
            AdoptFault::NoMemory => WorkFault::NoMemory,
            AdoptFault::Store => WorkFault::Store,
        }
    }
}

impl From<OpenFault> for WorkFault {
    ghost use Rattle.std.specs.Prelude.{◌≡◌};
    ghost use Rattle.acd_sessions.specs.Faults.{open_fault};

    ghost from_gives = { λ why fault. fault ≡ open_fault why };

    fn from(fault: OpenFault) -> WorkFault {
        match fault {
            OpenFault::Rows(rule) => WorkFault::BadRows(rule),
            OpenFault::NoMemory => WorkFault::NoMemory,
            OpenFault::Store => WorkFault::Store,
        }
    }
}

impl From<DeskFault> for WorkFault {
    ghost use Rattle.std.specs.Prelude.{◌≡◌};
    ghost use Rattle.acd_sessions.specs.Faults.{desk_fault};

    ghost from_gives = { λ why fault. fault ≡ desk_fault why };

    fn from(fault: DeskFault) -> WorkFault {
        match fault {
            DeskFault::NoMemory => WorkFault::NoMemory,
            DeskFault::StoreFault => WorkFault::Store,
        }
    }
}

impl From<AuditFault> for WorkFault {
    ghost use Rattle.std.specs.Prelude.{◌≡◌};
    ghost use Rattle.acd_sessions.specs.Faults.{audit_fault};

    ghost from_gives = { λ why fault. fault ≡ audit_fault why };

    fn from(fault: AuditFault) -> WorkFault {
        match fault {
            AuditFault::Desk(fault) => WorkFault::from(fault),
            AuditFault::Archive(fault) => WorkFault::from(fault),
        }
    }
}

impl From<LinesFault> for WorkFault {
    ghost use Rattle.std.specs.Prelude.{◌≡◌};
    ghost use Rattle.acd_sessions.specs.Faults.{lines_fault};

    ghost from_gives = { λ why fault. fault ≡ lines_fault why };

    fn from(fault: LinesFault) -> WorkFault {
        match fault {
            LinesFault::Read => WorkFault::Read,
            LinesFault::Write => WorkFault::Write,
            LinesFault::NoMemory => WorkFault::NoMemory,
        }
    }
}
