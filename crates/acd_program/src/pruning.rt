//! The prune of a desk: its old records leave its file, where the archive has them.

ghost use Rattle.std.specs.Prelude.{◌≡◌, false, IfOk, IfErr};
ghost use Rattle.sqlite.specs.Held.{state};
ghost use Rattle.sqlite_std_file.specs.File.{IsFresh};
ghost use Rattle.acd_sqlbook.specs.View.{book_seen};
ghost use Rattle.acd_desk.specs.Audits.Pairs.{book_call};
ghost use Rattle.acd_sessions.specs.Over.{OnlyAsked};
ghost use Rattle.acd_program.specs.Commands.FileTasks.{AsksToPrune, prune_over};
ghost use Rattle.acd_sessions.specs.Over.{database, Unserved};
ghost use Rattle.acd_program.specs.Archives.Pruning.{is_well, goes_on, asking, lent, deciding, CarriesOut, IsPruningInOrder, PlansOver, PlansIn};
ghost use Rattle.acd_sessions.specs.ToDo.{Ended, EndedWith};
ghost use Rattle.acd_program.specs.Archives.WithArchive.{IsFindingInOrder, IsShutWith, LeavesBeside};

use crate::auditing::{Finding, audited_with_archive};
use crate::cut::{find_cut, is_place};
use crate::fault::{ArchiveFault, Fault};
use crate::outcome::Pruning;
use crate::with_archive::found_and_closed;
use acd_book::{Book, BookFault};
use acd_command::Retention;
use acd_desk::Desk;
use acd_files::{close_connection, connect_archive};
use acd_log::Ending;
use acd_sessions::{WorkFault, archive_over, book_over};
use acd_sqlbook::SqlBook;
use sqlite::{Alter, Connection, FileFrom, FileStore};
use sqlite_disk::{Disk, Start};

// ---- what is to go ----

fn is_well(found: Finding) -> bool
    ensures { result ≡ is_well found }
{
    match found {
        Finding::Sound => true,
        Finding::Counted(_) => true,
        Finding::SentAgain(_) => true,
        Finding::SentAgainCounted(_, _) => true,
        Finding::Differs(_) => false,
    }
}

// Whether a prune goes on after an audit with this finding, of a file whose log ended so.
fn goes_on(ending: Ending, found: Finding) -> bool
    ensures { result ≡ goes_on ending found }
{
    match ending {
        Ending::Plain => is_well(found),
        Ending::Early => false,
        Ending::Headless => false,
    }
}

// What is to go of a book, where an audit with its archive found this.
fn decide<A: Book, B: Book>(
    archive: &mut A,
    book: &mut B,
    found: Finding,
    ending: Ending,
    retention: Retention,
) -> Result<Pruning, WorkFault>
    ensures { Ended (deciding ending found (lent A.Book archive) (lent B.Book book)) result }
{
    if !goes_on(ending, found) {
        return Ok(Pruning::Refused(found, ending));
    }
    let rows = archive.rows()?;
    let last = rows.last_stamp;
    let Some(cut) = find_cut(book, last, retention)? else {
        return Ok(Pruning::Nothing);
    };
    let holds = is_place(archive, cut.stamp, cut.number)?;
    if holds {
        return Ok(Pruning::UpTo(cut));
    }
    Err(WorkFault::NoPlace)
}

// ---- over a book and its archive ----

// Audits the book with its archive.
fn audited_beside<A: Book, B: Book>(
    rt: &HostRuntime,
    book: B,
    archive: &mut A,
) -> (Result<Finding, WorkFault>, B)
    ensures { EndedWith (asking IsFindingInOrder (lent A.Book archive) B.Book book) result }
{
    let mut desk = match Desk::open(rt.alloc(), book) {
        Ok(desk) => desk,
        Err((fault, book)) => return (Err(WorkFault::from(fault)), book),
    };
    match audited_with_archive(rt, &mut desk, archive, false) {
        Ok(found) => (Ok(found), desk.close()),
        Err(fault) => (Err(WorkFault::from(fault)), desk.close()),
    }
}

// What is to go of the book.
fn planned<A: Book, B: Book>(
    rt: &HostRuntime,
    book: B,
    archive: &mut A,
    ending: Ending,
    retention: Retention,
) -> (Result<Pruning, WorkFault>, B)
    ensures { EndedWith (asking (IsPruningInOrder ending) (lent A.Book archive) B.Book
        book) result }
{
    let (asked, mut book) = audited_beside(rt, book, archive);
    match asked {
        Ok(found) => {
            let decided = decide(archive, &mut book, found, ending, retention);
            (decided, book)
        }
        Err(fault) => (Err(fault), book),
    }
}

// ---- over a book ----

// The same with the archive that a database holds.
fn planned_over<S: Alter, B: Book>(
    rt: &HostRuntime,
    book: B,
    conn: Connection<S>,
    ending: Ending,
    retention: Retention,
) -> ((Result<Pruning, WorkFault>, B), Connection<S>)
    requires { conn.in_transaction ≡ false }
    ensures asked { PlansOver (database S.Store false conn) ending B.Book book result }
    // whatever comes of it, a reopening finds in the archive what it could find before
    ensures spared { Unserved false (state S.Store conn) (state S.Store result.1) }
    ensures kept { OnlyAsked (B.state book) (B.state result.0.1) }
{
    let mut archive = match archive_over(rt.alloc(), conn) {
        Ok(archive) => archive,
        Err((fault, conn)) => return ((Err(WorkFault::from(fault)), book), conn),
    };
    let planned = planned(rt, book, &mut archive, ending, retention);
    (planned, archive.into_connection())
}

// With the archive in files that were opened, which are closed.
fn planned_in<D: Disk + Drop, B: Book>(
    rt: &HostRuntime,
    book: B,
    conn: Connection<FileStore<D>>,
    ending: Ending,
    retention: Retention,
) -> (Result<Pruning, WorkFault>, B)
    requires { conn.in_transaction ≡ false }
    ensures asked { PlansIn ending conn (book_call B.state book result.1) result.0 }
    ensures spared { IsShutWith (Unserved false) conn }
    ensures kept { OnlyAsked (B.state book) (B.state result.1) }
{
    let (planned, conn) = planned_over(rt, book, conn, ending, retention);
    let (decided, book) = planned;
    (found_and_closed(decided, close_connection(conn)), book)
}

// With the archive at a path.
fn planned_with_archive<'a, S: Start, B: Book>(
    rt: &HostRuntime,
    book: B,
    start: S,
    archive: &'a str,
    ending: Ending,
    retention: Retention,
) -> (Result<Pruning, Fault<'a>>, B)
    ensures asked { AsksToPrune ⟦<FileFrom<S> as Disk>⟧ ending
        (book_call B.state book result.1) result.0 }
    ensures left { IfErr result.0 (LeavesBeside ⟦<FileFrom<S> as Disk>⟧ IsFresh) }
    ensures kept { OnlyAsked (B.state book) (B.state result.1) }
{
    let conn = match connect_archive(rt, archive, start) {
        Ok(conn) => conn,
        Err(fault) => return (Err(Fault::Archive(ArchiveFault::Opening(fault))), book),
    };
    let (decided, book) = planned_in(rt, book, conn, ending, retention);
    match decided {
        Ok(pruning) => (Ok(pruning), book),
        Err(fault) => (Err(Fault::Archive(ArchiveFault::Work(fault))), book),
    }
}

// ---- the prune ----

fn carry_out<C: Alter>(book: &mut SqlBook<C>, pruning: Pruning) -> Result<(), BookFault>
    ensures { CarriesOut (book_seen C.Store book.old) (book_seen C.Store book.new) result pruning }
{
    match pruning {
        Pruning::Refused(_, _) => Ok(()),
        Pruning::Nothing => Ok(()),
        Pruning::UpTo(cut) => book.prune(cut.stamp, cut.number),
    }
}

/// Prunes the desk in a database, whose log ended so before, by the archive at a path. It is opened beside the
/// database, and closed before anything is written.
pub(crate) fn prune_over<'a, C: Alter, S: Start>(
    rt: &HostRuntime,
    conn: Connection<C>,
    start: S,
    archive: &'a str,
    ending: Ending,
    retention: Retention,
) -> (Result<Pruning, Fault<'a>>, Connection<C>)
    requires { conn.in_transaction ≡ false }
    ensures { EndedWith (prune_over ⟦<FileFrom<S> as Disk>⟧ ending C.Store conn) result }
{
    let book = match book_over(rt.alloc(), conn, false) {
        Ok(book) => book,
        Err((fault, conn)) => return (Err(Fault::Work(WorkFault::from(fault))), conn),
    };
    let (planned, mut book) = planned_with_archive(rt, book, start, archive, ending, retention);
    let pruning = match planned {
        Ok(pruning) => pruning,
        Err(fault) => return (Err(fault), book.into_connection()),
    };
    match carry_out(&mut book, pruning) {
        Ok(()) => (Ok(pruning), book.into_connection()),
        Err(fault) => (
            Err(Fault::Work(WorkFault::from(fault))),
            book.into_connection(),
        ),
    }
}
