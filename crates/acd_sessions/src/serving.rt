//! The desk of a database, over HTTP.

ghost use Rattle.std.specs.Prelude.{◌≡◌, false};
ghost use Rattle.acd_io.specs.SentBytes.{Sends};
ghost use Rattle.acd_desk.specs.Desks.DeskState.{state_of};
ghost use Rattle.acd_sessions.specs.Faults.{desk_result};
ghost use Rattle.acd_lines.specs.Lines.{written};
ghost use Rattle.acd_sessions.specs.Serving.{ends_failed, listening_line, service, ListensBy, ServesBy, ServesOver, ServesIn};

use crate::connection::book_over;
use crate::fault::WorkFault;
use crate::sending::{send_number, send_text};
use crate::session::unless_failed;
use acd_book::Book;
use acd_command::Address;
use acd_desk::Desk;
use acd_http::{Door, Polled, ServeFault, Span};
use sqlite::{Alter, Connection};
use std::io::{self, ErrorKind, Write};

/// Where a service listens, and how long it lasts and waits.
#[derive(Clone, Copy)]
pub struct Serving<'a> {
    pub address: Address<'a>,
    pub span: Span,
}

/// The listener, where there is one.
pub(crate) fn listening<D>(door: io::Result<D>) -> Result<D, WorkFault> {
    match door {
        Ok(door) => Ok(door),
        Err(error) if error.kind() == ErrorKind::OutOfMemory => Err(WorkFault::NoMemory),
        Err(_) => Err(WorkFault::CannotListen),
    }
}

// Says that connections are waited for.
fn say<W: Write>(address: Address<'_>, writer: &mut W) -> Result<(), WorkFault>
    ensures { Sends W.contents writer.old writer.new result (listening_line address.entry) }
{
    match address {
        Address::Port(port) => { send_number(writer, b"listening on 127.0.0.1:", u64::from(port))? }
        Address::Socket(path) => send_text(writer, b"listening on ", path)?,
    }
    Ok(())
}

// A store that has failed is a fault of a service that has no other end, so that whoever started the command may start
// it again.
fn unless_endless<B: Book>(desk: &Desk<B>, connections: Option<u64>) -> Result<(), WorkFault>
    ensures { result ≡ desk_result (ends_failed connections (state_of B.Book desk.now).failed) }
{
    match connections {
        Some(_) => Ok(()),
        None => unless_failed(desk),
    }
}

// Answers connections. A line of one of them that could not be written is no fault of the command.
fn answer<D: Door, B: Book, E: Write>(
    rt: &HostRuntime,
    door: &mut D,
    desk: &mut Desk<B>,
    span: Span,
    errors: &mut E,
) -> Result<(), WorkFault>
    ensures { ListensBy B.Book desk result span (written E.Write errors) }
{
    match acd_http::serve(rt, rt.alloc(), door, desk, span, errors) {
        Ok(()) => unless_endless(desk, span.connections),
        Err(ServeFault::Write) => unless_endless(desk, span.connections),
        Err(ServeFault::NoMemory) => Err(WorkFault::NoMemory),
    }
}

/// The same, after the line that says where.
pub(crate) fn say_and_answer<D: Door, B: Book, W: Write, E: Write>(
    rt: &HostRuntime,
    door: &mut D,
    desk: &mut Desk<B>,
    serving: Serving<'_>,
    writer: &mut W,
    errors: &mut E,
) -> Result<(), WorkFault>
    ensures { ServesBy B.Book desk result
        (service serving W.Write E.Write writer errors) }
{
    say(serving.address, writer)?;
    answer(rt, door, desk, serving.span, errors)
}

// Answers connections at a listener, where there is one.
fn serve_at<D: Door + Drop, B: Book, W: Write, E: Write>(
    rt: &HostRuntime,
    door: io::Result<D>,
    desk: &mut Desk<B>,
    serving: Serving<'_>,
    writer: &mut W,
    errors: &mut E,
) -> Result<(), WorkFault>
    ensures { ServesBy B.Book desk result
        (service serving W.Write E.Write writer errors) }
{
    let mut door = listening(door)?;
    say_and_answer(rt, &mut door, desk, serving, writer, errors)
}

fn serve_desk<B: Book, W: Write, E: Write>(
    rt: &HostRuntime,
    desk: &mut Desk<B>,
    serving: Serving<'_>,
    writer: &mut W,
    errors: &mut E,
) -> Result<(), WorkFault>
    ensures { ServesBy B.Book desk result
        (service serving W.Write E.Write writer errors) }
{
    let alloc = rt.alloc();
    match serving.address {
        Address::Port(port) => {
            let door = Polled::at_port(rt, alloc, port);
            serve_at(rt, door, desk, serving, writer, errors)
        }
        Address::Socket(path) => {
            let door = Polled::at_path(rt, alloc, path);
            serve_at(rt, door, desk, serving, writer, errors)
        }
    }
}

fn serve_book<B: Book, W: Write, E: Write>(
    rt: &HostRuntime,
    book: B,
    serving: Serving<'_>,
    writer: &mut W,
    errors: &mut E,
) -> (Result<(), WorkFault>, B)
    ensures { ServesOver B.Book book result
        (service serving W.Write E.Write writer errors) }
{
    let mut desk = match Desk::open(rt.alloc(), book) {
        Ok(desk) => desk,
        Err((fault, book)) => return (Err(WorkFault::from(fault)), book),
    };
    let done = serve_desk(rt, &mut desk, serving, writer, errors);
    (done, desk.close())
}

/// Answers connections, so many or until the store has failed, and ticks between them where that is asked for. The desk
/// is that of a database, which is made where there is none and one is to be made. The faults of connections are lines
/// on `errors`.
pub fn serve<S: Alter, W: Write, E: Write>(
    rt: &HostRuntime,
    conn: Connection<S>,
    makes: bool,
    serving: Serving<'_>,
    writer: &mut W,
    errors: &mut E,
) -> (Result<(), WorkFault>, Connection<S>)
    requires { conn.in_transaction ≡ false }
    ensures idle { result.1.in_transaction ≡ false }
    ensures ended { ServesIn S.Store makes conn result
        (service serving W.Write E.Write writer errors) }
{
    let book = match book_over(rt.alloc(), conn, makes) {
        Ok(book) => book,
        Err((fault, conn)) => return (Err(WorkFault::from(fault)), conn),
    };
    let (done, book) = serve_book(rt, book, serving, writer, errors);
    (done, book.into_connection())
}
