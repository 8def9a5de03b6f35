//! Work over a database. Whatever needs a desk is done over any book, so that one function alone names the store.

ghost use Rattle.std.specs.Prelude.{◌≡◌, false, [], IfOk, unwrap_or};
ghost use Rattle.sqlite.specs.Held.{state};
ghost use Rattle.acd_desk.specs.Reads.DeskReads.{DeskRead};
ghost use Rattle.acd_desk.specs.Reads.ReadAnswers.{text_read};
ghost use Rattle.acd_sessions.specs.Over.{OnlyAsked};
ghost use Rattle.acd_program.specs.Commands.Ended.{OnlyReads, plan_over, work_over, work_in};
ghost use Rattle.acd_lines.specs.Lines.{written};
ghost use Rattle.acd_sessions.specs.Over.{Unserved};
ghost use Rattle.acd_sessions.specs.ToDo.{EndedWith};
ghost use Rattle.acd_program.specs.Commands.Work.{text_left, status_left, IsPrintoutOf, PrintsOver, AuditsBook};

use crate::auditing::{Finding, audited};
use crate::outcome::Pruning;
use crate::status::Status;
use acd_book::Book;
use acd_command::{Printout, Work};
use acd_desk::{Desk, DeskFault};
use acd_lines::import;
use acd_log::Ending;
use acd_sessions::{WorkFault, book_over};
use acd_terms::Request;
use sqlite::{Alter, Connection};
use std::alloc::Global;
use std::io::Write;

/// The rest that is printed of it, once the file is closed.
#[derive(Drop)]
pub(crate) enum Done {
    Nothing,
    Text(String),
    Audited(Finding, Ending),
    /// A quiet prune prints nothing where there was nothing to prune.
    Pruned(Pruning, bool),
}

fn imported<B: Book, W: Write>(
    alloc: Global,
    book: B,
    requests: &[Request],
    writer: &mut W,
) -> (Result<Done, WorkFault>, B)
    ensures result { EndedWith (plan_over B.Book book requests.now
        (written W.Write writer)) result }
    ensures nothing { IfOk result.0 (λ done. done ≡ Done.Nothing) }
{
    let mut desk = match Desk::open(alloc, book) {
        Ok(desk) => desk,
        Err((fault, book)) => return (Err(WorkFault::from(fault)), book),
    };
    match import(alloc, &mut desk, requests, writer) {
        Ok(()) => (Ok(Done::Nothing), desk.close()),
        Err(fault) => (Err(WorkFault::from(fault)), desk.close()),
    }
}

// The text that the desk reads. There always is one.
fn text_of<B: Book>(desk: &mut Desk<B>, printout: Printout) -> Result<Option<String>, DeskFault>
    ensures { DeskRead B.Book desk.old desk.new result (IsPrintoutOf printout) }
{
    match printout {
        Printout::Report => desk.report(0),
        Printout::Export => desk.export(),
    }
}

fn done_by(text: Option<String>) -> Done
    ensures text { text_left result ≡ unwrap_or (text_read text) [] }
    ensures status { status_left result ≡ Status.Success }
{
    match text {
        Some(text) => Done::Text(text),
        None => Done::Nothing,
    }
}

fn read_text<B: Book>(alloc: Global, book: B, printout: Printout) -> (Result<Done, WorkFault>, B)
    ensures over { IfOk result.0
        (λ done. PrintsOver printout (B.state book) done (B.state result.1)) }
    ensures kept { OnlyAsked (B.state book) (B.state result.1) }
{
    let mut desk = match Desk::open(alloc, book) {
        Ok(desk) => desk,
        Err((fault, book)) => return (Err(WorkFault::from(fault)), book),
    };
    match text_of(&mut desk, printout) {
        Ok(text) => (Ok(done_by(text)), desk.close()),
        Err(fault) => (Err(WorkFault::from(fault)), desk.close()),
    }
}

fn audit<B: Book>(
    rt: &HostRuntime,
    book: B,
    counts: bool,
    ending: Ending,
) -> (Result<Done, WorkFault>, B)
    ensures over { AuditsBook B.Book book result counts ending }
    ensures kept { OnlyAsked (B.state book) (B.state result.1) }
{
    let mut desk = match Desk::open(rt.alloc(), book) {
        Ok(desk) => desk,
        Err((fault, book)) => return (Err(WorkFault::from(fault)), book),
    };
    match audited(rt, &mut desk, counts) {
        Ok(found) => (Ok(Done::Audited(found, ending)), desk.close()),
        Err(fault) => (Err(WorkFault::from(fault)), desk.close()),
    }
}

fn over_book<B: Book, W: Write>(
    rt: &HostRuntime,
    book: B,
    work: Work<'_>,
    writer: &mut W,
) -> (Result<Done, WorkFault>, B)
    ensures result { EndedWith (work_over B.Book book work.entry
        (written W.Write writer)) result }
    // work that only reads changes nothing, whatever comes of it, and writes nothing
    ensures kept { OnlyReads work.entry → OnlyAsked (B.state book) (B.state result.1) }
    ensures silent { OnlyReads work.entry → writer.new ≡ writer.old }
{
    match work {
        Work::Import(requests) => imported(rt.alloc(), book, requests, writer),
        Work::Print(printout) => read_text(rt.alloc(), book, printout),
        Work::Audit { counts, ending } => audit(rt, book, counts, ending),
    }
}

/// Does it over the database, with a new book where it has no tables and one is to be made.
pub(crate) fn over_database<S: Alter, W: Write>(
    rt: &HostRuntime,
    conn: Connection<S>,
    makes: bool,
    work: Work<'_>,
    writer: &mut W,
) -> (Result<Done, WorkFault>, Connection<S>)
    requires { conn.in_transaction ≡ false }
    ensures result { EndedWith (work_in S.Store makes conn work.entry (written W.Write writer))
        result }
    ensures kept { OnlyReads work.entry
        → Unserved makes (state S.Store conn) (state S.Store result.1) }
    ensures silent { OnlyReads work.entry → writer.new ≡ writer.old }
{
    let book = match book_over(rt.alloc(), conn, makes) {
        Ok(book) => book,
        Err((fault, conn)) => return (Err(WorkFault::from(fault)), conn),
    };
    let (done, book) = over_book(rt, book, work, writer);
    (done, book.into_connection())
}
