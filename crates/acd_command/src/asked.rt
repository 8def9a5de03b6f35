//! The task of a command line.

use acd_http::Span;
use acd_log::Ending;
use acd_terms::Request;
use std::time::Duration;

/// Where a service waits for connections.
#[derive(Clone, Copy)]
pub enum Address<'a> {
    /// A port of the loopback address.
    Port(u16),
    /// The path of a Unix socket.
    Socket(&'a str),
}

/// The newest records, which a prune leaves beside those that it always leaves.
#[derive(Clone, Copy)]
pub enum Retention {
    /// Those of so many days of 24 hours.
    Days(u32),
    /// So many.
    Records(u32),
}

/// Work over a book.
#[derive(Clone, Copy)]
pub enum Work<'w> {
    /// Take the requests of a plan.
    Import(&'w [Request]),
    /// Print a text of its desk.
    Print(Printout),
    /// Run the kept requests again, and compare what they give with the book. How the log of its file ended before is
    /// printed beside that; where nobody looked, plainly.
    Audit { counts: bool, ending: Ending },
}

/// A desk printed as one text.
#[derive(Clone, Copy)]
pub enum Printout {
    /// The report of the queues. No moment is before 0, so it is that of the last executed request.
    Report,
    /// All events.
    Export,
}

/// The task of a command line, with the paths that it names; a list of them is lent by the matches.
#[derive(Clone, Copy)]
pub enum Task<'m, 'a> {
    /// Answer the lines of standard input, requests alone or reads too, over a desk in memory or in a file; a storeFault
    /// may be what ends them.
    Lines {
        file: Option<&'a str>,
        reads: bool,
        ends: bool,
    },
    /// Answer connections over HTTP: so many, or until the store has failed; and tick between them, where that is asked for.
    Serve {
        file: &'a str,
        address: Address<'a>,
        span: Span,
    },
    /// Answer the lines of standard input, requests and reads, up to the order to serve; and then connections over HTTP,
    /// until the store has failed, and tick between them, where that is asked for.
    Standby {
        file: &'a str,
        address: Address<'a>,
        step: Option<Duration>,
        patience: Option<Duration>,
    },
    /// Take the requests of a plan.
    Import {
        file: &'a str,
        plan: &'a str,
    },
    /// Audit the desk in a file, and say how its log ended before it was opened.
    AuditWhole {
        file: &'a str,
        counts: bool,
    },
    /// Audit the desk in a file with the archive that it goes on from; where it is looked at whole, say how its log
    /// ended.
    AuditWithArchive {
        file: &'a str,
        archive: &'a str,
        counts: bool,
        whole: bool,
    },
    /// Take the old records out of the desk in a file that its archive has; where there are none, a quiet prune says
    /// nothing.
    Prune {
        file: &'a str,
        archive: &'a str,
        retention: Retention,
        quiet: bool,
    },
    /// Print all events of archives, which are named from the oldest on, and of the desk in a file, as one table.
    ExportWithArchives {
        file: &'a str,
        archives: &'m [&'a str],
    },
    /// Print what a read of the desk in a file finds: the queue report, all event reports, or what an audit finds.
    Read {
        file: &'a str,
        work: Work<'a>,
    },
}
