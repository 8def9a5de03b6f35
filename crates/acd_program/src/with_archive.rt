//! The audit of a desk with the archive that its file goes on from.

ghost use Rattle.std.specs.Prelude.{◌≡◌, false, Ok, IfOk, IfErr};
ghost use Rattle.sqlite.specs.Held.{state};
ghost use Rattle.sqlite_std_file.specs.File.{IsFresh};
ghost use Rattle.acd_desk.specs.Desks.DeskState.{state_of};
ghost use Rattle.acd_program.specs.Commands.FileTasks.{AsksWithArchive, AuditsWith, AuditsDatabase};
ghost use Rattle.acd_program.specs.Archives.WithArchive.{AsksIn, AsksOver, IsShutWith, LeavesArchive, LeavesBeside};
ghost use Rattle.acd_sessions.specs.Over.{OnlyAsked};
ghost use Rattle.acd_program.specs.Commands.AuditFindings.{HasCount};
ghost use Rattle.acd_sessions.specs.Over.{database, Unserved};

use crate::auditing::{Finding, audited_with_archive};
use crate::desk::Done;
use crate::fault::{ArchiveFault, Fault};
use acd_book::{Book, BookFault};
use acd_desk::Desk;
use acd_files::{close_connection, connect_archive};
use acd_log::Ending;
use acd_sessions::{WorkFault, archive_over, book_over};
use sqlite::{Alter, Connection, FileFrom, FileStore};
use sqlite_disk::{Disk, Start};

// Asks the desk with the archive that a database holds.
fn asked_over<S: Alter, B: Book>(
    rt: &HostRuntime,
    desk: &mut Desk<B>,
    conn: Connection<S>,
    counts: bool,
) -> (Result<Finding, WorkFault>, Connection<S>)
    requires { conn.in_transaction ≡ false }
    ensures counted { IfOk result.0 (HasCount counts) }
    ensures asked { AsksOver (database S.Store false conn) B.Book desk.old desk.new result }
    // whatever comes of it, a reopening finds in the archive what it could find before
    ensures spared { Unserved false (state S.Store conn) (state S.Store result.1) }
    ensures kept { OnlyAsked (state_of B.Book desk.old).book (state_of B.Book desk.new).book }
{
    let mut book = match archive_over(rt.alloc(), conn) {
        Ok(book) => book,
        Err((fault, conn)) => return (Err(WorkFault::from(fault)), conn),
    };
    match audited_with_archive(rt, desk, &mut book, counts) {
        Ok(found) => (Ok(found), book.into_connection()),
        Err(fault) => (Err(WorkFault::from(fault)), book.into_connection()),
    }
}

/// A fault that ended the audit comes before one of closing its archive.
pub(crate) fn found_and_closed<T: Copy>(
    found: Result<T, WorkFault>,
    closed: Result<(), BookFault>,
) -> Result<T, WorkFault>
    ensures { IfOk result (λ x. (found ≡ Ok x) × (closed ≡ Ok tt)) }
{
    let found = found?;
    closed?;
    Ok(found)
}

// Asks the desk with the archive in files that were opened, and closes them.
fn found_in<D: Disk + Drop, B: Book>(
    rt: &HostRuntime,
    desk: &mut Desk<B>,
    conn: Connection<FileStore<D>>,
    counts: bool,
) -> Result<Finding, WorkFault>
    requires { conn.in_transaction ≡ false }
    ensures counted { IfOk result (HasCount counts) }
    ensures asked { AsksIn conn B.Book desk.old desk.new result }
    ensures spared { IsShutWith (Unserved false) conn }
    ensures kept { OnlyAsked (state_of B.Book desk.old).book (state_of B.Book desk.new).book }
{
    let (found, conn) = asked_over(rt, desk, conn, counts);
    found_and_closed(found, close_connection(conn))
}

// Opens the archive, asks the desk, and closes the archive.
fn found_with_archive<'a, S: Start, B: Book>(
    rt: &HostRuntime,
    desk: &mut Desk<B>,
    start: S,
    archive: &'a str,
    counts: bool,
) -> Result<Finding, ArchiveFault<'a>>
    ensures counted { IfOk result (HasCount counts) }
    ensures asked { AsksWithArchive ⟦<FileFrom<S> as Disk>⟧ B.Book desk.old desk.new result }
    ensures left { IfErr result (LeavesArchive ⟦<FileFrom<S> as Disk>⟧ IsFresh) }
    ensures kept { OnlyAsked (state_of B.Book desk.old).book (state_of B.Book desk.new).book }
{
    let conn = connect_archive(rt, archive, start)?;
    match found_in(rt, desk, conn, counts) {
        Ok(found) => Ok(found),
        Err(fault) => Err(ArchiveFault::Work(fault)),
    }
}

// Over a book.
fn audit_with_archive<'a, S: Start, B: Book>(
    rt: &HostRuntime,
    book: B,
    start: S,
    archive: &'a str,
    counts: bool,
    ending: Ending,
) -> (Result<Done, Fault<'a>>, B)
    ensures over { AuditsWith ⟦<FileFrom<S> as Disk>⟧ (counts, ending) B.Book book result }
    ensures left { IfErr result.0 (LeavesBeside ⟦<FileFrom<S> as Disk>⟧ IsFresh) }
    ensures kept { OnlyAsked (B.state book) (B.state result.1) }
{
    let mut desk = match Desk::open(rt.alloc(), book) {
        Ok(desk) => desk,
        Err((fault, book)) => return (Err(Fault::Work(WorkFault::from(fault))), book),
    };
    match found_with_archive(rt, &mut desk, start, archive, counts) {
        Ok(found) => (Ok(Done::Audited(found, ending)), desk.close()),
        Err(fault) => (Err(Fault::Archive(fault)), desk.close()),
    }
}

/// Audits the desk in a database with the archive at a path, which is opened once the desk is.
pub(crate) fn over_archive<'a, C: Alter, S: Start>(
    rt: &HostRuntime,
    conn: Connection<C>,
    start: S,
    archive: &'a str,
    counts: bool,
    ending: Ending,
) -> (Result<Done, Fault<'a>>, Connection<C>)
    requires { conn.in_transaction ≡ false }
    ensures over { AuditsDatabase ⟦<FileFrom<S> as Disk>⟧ (counts, ending) C.Store conn result }
    // where a fault ended it, so the archive is left
    ensures left { IfErr result.0 (LeavesBeside ⟦<FileFrom<S> as Disk>⟧ IsFresh) }
    // whatever comes of it, a reopening finds in the desk's database what it could find before
    ensures kept { Unserved false (state C.Store conn) (state C.Store result.1) }
{
    let book = match book_over(rt.alloc(), conn, false) {
        Ok(book) => book,
        Err((fault, conn)) => return (Err(Fault::Work(WorkFault::from(fault))), conn),
    };
    let (done, book) = audit_with_archive(rt, book, start, archive, counts, ending);
    (done, book.into_connection())
}
