//! Lines over a connection, from what its database holds to what was answered.

ghost use Rattle.std.specs.Prelude.{◌≡◌, true, false, IfOk, IfErr};
ghost use Rattle.sqlite.specs.Held.{state};
ghost use Rattle.acd_sql_schema.specs.Creation.{IfClean};
ghost use Rattle.acd_sqlbook.specs.Adoption.{IsUntouched};
ghost use Rattle.acd_sqlbook.specs.Opening.{IfOpened, IfHandedBack};
ghost use Rattle.acd_sqlbook.specs.View.{book_seen};
ghost use Rattle.acd_lines.specs.Questions.{TakesTurns};
ghost use Rattle.acd_sessions.specs.Faults.{unmade_fault};
ghost use Rattle.acd_sessions.specs.LinesOver.{LinesLeaveEach};
ghost use Rattle.acd_lines.specs.Lines.{streamed};
ghost use Rattle.acd_sessions.specs.Over.{database, Unserved, unmade};
ghost use Rattle.acd_sessions.specs.Sessions.{LinesLeaveIn};
ghost use Rattle.acd_sessions.specs.ConnectionBook.{IsHeldBook, IsTaken, MayMakeIn};

use crate::fault::WorkFault;
use crate::laws::lines_are_sessions;
use crate::session::lines_over_book;
use acd_book::BookFault;
use acd_http::RequestsAndReads;
use acd_lines::{Answering, Requests};
use acd_sql_schema::{Found, fault_of, look_over};
use acd_sqlbook::{AdoptFault, SqlBook, has_no_tables};
use acd_terms::Limits;
use sqlite::{Alter, Connection};
use std::alloc::Global;
use std::io::{Read, Write};

// A table that version 1 doesn't have.
const SECOND: &[u8; 12] = b"agent_groups";

// Why no book was made, as why none was opened.
fn unmade_fault(fault: BookFault) -> AdoptFault
    ensures { result ≡ unmade_fault fault }
{
    match fault {
        BookFault::NoMemory => AdoptFault::NoMemory,
        BookFault::Store => AdoptFault::Store,
    }
}

// Makes the tables of a new book, with the greatest limits.
fn create<S: Alter>(
    alloc: Global,
    conn: Connection<S>,
) -> Result<SqlBook<S>, (AdoptFault, Connection<S>)>
    requires { conn.in_transaction ≡ false }
    ensures made { IfOk result
        (λ b. IsHeldBook (unmade (state S.Store conn)) (book_seen S.Store b)) }
    ensures idle { IfErr result (λ e. e.1.in_transaction ≡ false) }
    ensures stops { IfErr result (λ e. MayMakeIn S.Store conn e.1) }
{
    match SqlBook::create(alloc, conn, Limits::GREATEST) {
        Ok(book) => Ok(book),
        Err((fault, conn)) => Err((unmade_fault(fault), conn)),
    }
}

/// The book that a database holds or, where it has no tables and one is to be made, a new one.
pub fn book_over<S: Alter>(
    alloc: Global,
    conn: Connection<S>,
    makes: bool,
) -> Result<SqlBook<S>, (AdoptFault, Connection<S>)>
    requires { conn.in_transaction ≡ false }
    ensures taken { IfOk result (λ b. IsTaken makes (state S.Store conn) (book_seen S.Store b)) }
    ensures idle { IfErr result (λ e. e.1.in_transaction ≡ false) }
    ensures unserved { IfErr result (λ e. Unserved makes (state S.Store conn) (state S.Store e.1)) }
{
    if makes && has_no_tables(conn.schema()) {
        return create(alloc, conn);
    }
    SqlBook::adopt(alloc, conn)
}

// Why a database without the second version's tables is no archive. It is only looked at.
fn refusal_of<S: Alter>(alloc: Global, conn: &mut Connection<S>) -> AdoptFault
    requires { conn.old.in_transaction ≡ false }
    ensures { IfClean S.Store conn.old conn.new IsUntouched }
{
    match look_over(alloc, conn) {
        Ok(Found::Book(_)) => AdoptFault::WrongVersion(1),
        Ok(Found::Fault(fault)) => fault,
        Err(error) => fault_of(error),
    }
}

/// The book that a database holds, of version 2. Nothing is changed, and tables of version 1 stay what they are.
pub fn archive_over<S: Alter>(
    alloc: Global,
    mut conn: Connection<S>,
) -> Result<SqlBook<S>, (AdoptFault, Connection<S>)>
    requires { conn.in_transaction ≡ false }
    ensures taken { IfOk result (λ b. IsTaken false (state S.Store conn) (book_seen S.Store b)) }
    ensures untouched { IfOpened S.Store conn result IsUntouched }
    ensures refused { IfHandedBack S.Store conn result (λ fault. IsUntouched) }
{
    if conn.schema().table_named(SECOND).is_some() {
        return SqlBook::adopt(alloc, conn);
    }
    let fault = refusal_of(alloc, &mut conn);
    Err((fault, conn))
}

/// Answers lines over the book that a database holds or, where it has no tables and one is to be made, over a
/// new one with the greatest limits, and gives the connection back.
pub fn lines_over_connection<S: Alter, A: Answering<SqlBook<S>>, R: Read, W: Write>(
    alloc: Global,
    lines: &mut A,
    conn: Connection<S>,
    makes: bool,
    ends: bool,
    reader: &mut R,
    writer: &mut W,
) -> (Result<(), WorkFault>, Connection<S>)
    requires { conn.in_transaction ≡ false }
    ensures done { LinesLeaveEach (database S.Store makes conn) (TakesTurns A.Answering) ends
        (streamed R.Read W.Write reader writer) result }
    ensures idle { result.1.in_transaction ≡ false }
{
    let book = match book_over(alloc, conn, makes) {
        Ok(book) => book,
        Err((fault, conn)) => return (Err(WorkFault::from(fault)), conn),
    };
    let (done, book) = lines_over_book(alloc, lines, book, ends, reader, writer);
    (done, book.into_connection())
}

// Answers requests, and reads among them.
fn with_reads<S: Alter, R: Read, W: Write>(
    alloc: Global,
    conn: Connection<S>,
    makes: bool,
    ends: bool,
    reader: &mut R,
    writer: &mut W,
) -> (Result<(), WorkFault>, Connection<S>)
    requires { conn.in_transaction ≡ false }
    ensures ended { LinesLeaveIn (database S.Store makes conn) true ends
        (streamed R.Read W.Write reader writer) result }
    ensures idle { result.1.in_transaction ≡ false }
{
    match RequestsAndReads::new(alloc) {
        Ok(mut lines) => {
            lines_over_connection(alloc, &mut lines, conn, makes, ends, reader, writer)
        }
        Err(fault) => (Err(WorkFault::from(fault)), conn),
    }
}

/// Answers lines so: requests alone, or these and reads.
pub fn database_lines<S: Alter, R: Read, W: Write>(
    alloc: Global,
    conn: Connection<S>,
    makes: bool,
    reads: bool,
    ends: bool,
    reader: &mut R,
    writer: &mut W,
) -> (Result<(), WorkFault>, Connection<S>)
    requires { conn.in_transaction ≡ false }
    ensures ended { LinesLeaveIn (database S.Store makes conn) reads ends
        (streamed R.Read W.Write reader writer) result }
    ensures idle { result.1.in_transaction ≡ false }
{
    if reads {
        return with_reads(alloc, conn, makes, ends, reader, writer);
    }
    lines_are_sessions::<S, R, W>();
    let mut lines = Requests::new(alloc);
    lines_over_connection(alloc, &mut lines, conn, makes, ends, reader, writer)
}
