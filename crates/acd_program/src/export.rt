//! The events of archives and of the file that goes on from them, as one table.

ghost use Rattle.std.specs.Prelude.{◌≡◌, false, length, IfOk, IfErr};
ghost use Rattle.sqlite.specs.Held.{state};
ghost use Rattle.sqlite_std_file.specs.File.{IsFresh};
ghost use Rattle.acd_book.specs.BookReads.{MayRead, IfOrdered};
ghost use Rattle.acd_desk.specs.Reads.ReadAnswers.{WritesPage};
ghost use Rattle.acd_program.specs.Archives.ArchiveExport.{WritesRows, AddsEvents, AddsOver, AddsIn, IsNewTable, LeavesArchives, LeavesExport};
ghost use Rattle.acd_program.specs.Commands.HostTasks.{AddsHostArchive, AddsHostArchives, IsExport};
ghost use Rattle.acd_sessions.specs.Over.{database, Unserved};
ghost use Rattle.acd_program.specs.Archives.WithArchive.{IsShutWith, LeavesArchive};

use crate::fault::{ArchiveFault, Fault};
use crate::with_archive::found_and_closed;
use acd_book::{Book, BookFault};
use acd_files::{close_connection, connect_archive};
use acd_reports::{events_page, export_header};
use acd_sessions::{WorkFault, archive_over, book_over};
use sqlite::{Alter, Connection, FileFrom, FileStore};
use sqlite_disk::{Disk, Start, Unknown};
use std::alloc::{AllocError, Global};

// So many events are read at a time.
const PAGE: usize = 1000;

/// How each file starts that is opened.
pub(crate) trait Starts<S> {
    fn start(&self) -> S;
}

/// Nothing is known of any.
pub(crate) struct UnknownStarts;

impl Starts<Unknown> for UnknownStarts {
    fn start(&self) -> Unknown {
        Unknown
    }
}

/// A table of events, as far as it is made: its text, and the number up to which it has them.
#[derive(Drop)]
pub(crate) struct EventTable {
    pub(crate) text: String,
    pub(crate) last: u64,
}

fn new_table(alloc: Global) -> Result<EventTable, AllocError>
    ensures { IfOk result IsNewTable }
{
    let text = String::from_str(alloc, export_header())?;
    Ok(EventTable { text, last: 0 })
}

// ---- of a book ----

// Writes the records of the first events above a number, and gives the number of the last one. Where it gives none,
// there are no more.
fn add_page<B: Book>(
    alloc: Global,
    book: &mut B,
    text: &mut String,
    after: u64,
) -> Result<Option<u64>, BookFault>
    ensures { MayRead B.state book.old book.new result (WritesPage text.old text.new after) }
{
    let events = book.events_after(after, PAGE)?;
    let last = match events.last() {
        None => return Ok(None),
        Some(last) => last.number,
    };
    let Ok(page) = events_page(alloc, &events) else {
        return Err(BookFault::NoMemory);
    };
    match text.push_str(&page) {
        Ok(()) => Ok(Some(last)),
        Err(_) => Err(BookFault::NoMemory),
    }
}

// Writes those of all events above a number.
fn add_rows<B: Book>(
    alloc: Global,
    book: &mut B,
    text: &mut String,
    after: u64,
) -> Result<(), BookFault>
    ensures { MayRead B.state book.old book.new result (WritesRows text.old text.new after) }
{
    let mut above = after;
    for _ in 0..u64::MAX {
        let next = add_page(alloc, book, text, above)?;
        match next {
            None => return Ok(()),
            Some(last) => above = last,
        }
    }
    Err(BookFault::NoMemory)
}

// Adds the events of a book to the table.
fn add_events<B: Book>(alloc: Global, book: &mut B, table: &mut EventTable) -> Result<(), BookFault>
    ensures { MayRead B.state book.old book.new result
        (IfOrdered (AddsEvents table.old table.new)) }
{
    let rows = book.rows()?;
    let after = table.last;
    add_rows(alloc, book, &mut table.text, after)?;
    table.last = after.max(rows.last_event);
    Ok(())
}

// ---- of a database ----

// Adds those of the desk in a database.
fn add_desk<S: Alter>(
    alloc: Global,
    conn: Connection<S>,
    table: &mut EventTable,
) -> (Result<(), WorkFault>, Connection<S>)
    requires { conn.in_transaction ≡ false }
    ensures added { AddsOver (database S.Store false conn) table.old table.new result }
    // whatever comes of it, a reopening finds in the desk's database what it could find before
    ensures spared { Unserved false (state S.Store conn) (state S.Store result.1) }
{
    let mut book = match book_over(alloc, conn, false) {
        Ok(book) => book,
        Err((fault, conn)) => return (Err(WorkFault::from(fault)), conn),
    };
    match add_events(alloc, &mut book, table) {
        Ok(()) => (Ok(()), book.into_connection()),
        Err(fault) => (Err(WorkFault::from(fault)), book.into_connection()),
    }
}

// ---- of archives ----

// Adds those of the archive that a database holds.
fn add_archived<S: Alter>(
    alloc: Global,
    conn: Connection<S>,
    table: &mut EventTable,
) -> (Result<(), WorkFault>, Connection<S>)
    requires { conn.in_transaction ≡ false }
    ensures added { AddsOver (database S.Store false conn) table.old table.new result }
    ensures spared { Unserved false (state S.Store conn) (state S.Store result.1) }
{
    let mut book = match archive_over(alloc, conn) {
        Ok(book) => book,
        Err((fault, conn)) => return (Err(WorkFault::from(fault)), conn),
    };
    match add_events(alloc, &mut book, table) {
        Ok(()) => (Ok(()), book.into_connection()),
        Err(fault) => (Err(WorkFault::from(fault)), book.into_connection()),
    }
}

// Adds those of an archive in files that were opened, and closes them.
fn add_files<D: Disk + Drop>(
    alloc: Global,
    conn: Connection<FileStore<D>>,
    table: &mut EventTable,
) -> Result<(), WorkFault>
    requires { conn.in_transaction ≡ false }
    ensures added { AddsIn conn table.old table.new result }
    ensures spared { IsShutWith (Unserved false) conn }
{
    let (added, conn) = add_archived(alloc, conn, table);
    found_and_closed(added, close_connection(conn))
}

// Opens an archive, adds its events, and closes it.
fn add_archive<'a, S: Start>(
    rt: &HostRuntime,
    start: S,
    archive: &'a str,
    table: &mut EventTable,
) -> Result<(), ArchiveFault<'a>>
    ensures added { IfOk result (λ done. AddsHostArchive S.Start table) }
    ensures left { IfErr result (LeavesArchive ⟦<FileFrom<S> as Disk>⟧ IsFresh) }
{
    let conn = connect_archive(rt, archive, start)?;
    match add_files(rt.alloc(), conn, table) {
        Ok(()) => Ok(()),
        Err(fault) => Err(ArchiveFault::Work(fault)),
    }
}

// Adds those of archives, one after another.
fn add_archives<'a, S: Start, O: Starts<S>>(
    rt: &HostRuntime,
    starts: &O,
    archives: &[&'a str],
    table: &mut EventTable,
) -> Result<(), ArchiveFault<'a>>
    ensures added { IfOk result (λ done. AddsHostArchives S.Start (length archives.now) table) }
    ensures left { IfErr result (LeavesArchives ⟦<FileFrom<S> as Disk>⟧ IsFresh) }
{
    for archive in archives {
        match add_archive(rt, starts.start(), *archive, table) {
            Ok(()) => {}
            Err(fault) => return Err(fault),
        }
    }
    Ok(())
}

/// The table of the events of archives and of the desk in a database, which stays open while they are read.
pub(crate) fn table_over<'a, C: Alter, S: Start, O: Starts<S>>(
    rt: &HostRuntime,
    conn: Connection<C>,
    starts: &O,
    archives: &[&'a str],
) -> (Result<EventTable, Fault<'a>>, Connection<C>)
    requires { conn.in_transaction ≡ false }
    ensures made { IfOk result.0 (IsExport S.Start (length archives.now) C.Store
        (conn, result.1)) }
    // where a fault ended it, so the archives are left
    ensures left { IfErr result.0 (LeavesExport ⟦<FileFrom<S> as Disk>⟧ IsFresh) }
    // whatever comes of it, a reopening finds in the desk's database what it could find before
    ensures kept { Unserved false (state C.Store conn) (state C.Store result.1) }
{
    let mut table = match new_table(rt.alloc()) {
        Ok(table) => table,
        Err(fault) => return (Err(Fault::Work(WorkFault::from(fault))), conn),
    };
    match add_archives(rt, starts, archives, &mut table) {
        Ok(()) => {}
        Err(fault) => return (Err(Fault::Archive(fault)), conn),
    }
    let (added, conn) = add_desk(rt.alloc(), conn, &mut table);
    match added {
        Ok(()) => (Ok(table), conn),
        Err(fault) => (Err(Fault::Work(fault)), conn),
    }
}
