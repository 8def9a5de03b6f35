//! A standby: lines over the desk of a database and, once they say so, connections over the same desk.

ghost use Rattle.std.specs.Prelude.{false};
ghost use Rattle.acd_sessions.specs.Over.{database};
ghost use Rattle.acd_sessions.specs.Standby.{upon, fed, lines_to_order, StandsBy, StandsByOver, StandsByIn};
ghost use Rattle.acd_sessions.specs.ToDo.{Ended};
ghost use Rattle.std.specs.Prelude.{◌≡◌};

use crate::connection::book_over;
use crate::fault::WorkFault;
use crate::serving::{Serving, listening, say_and_answer};
use acd_book::Book;
use acd_command::Address;
use acd_desk::Desk;
use acd_http::{Door, Polled, lines_with_reads};
use acd_io::UntilOrder;
use acd_lines::LinesFault;
use sqlite::{Alter, Connection};
use std::alloc::Global;
use std::io::{self, Read, Write};

// Answers lines, requests and reads, up to the order. Without it that is a fault.
fn follow<B: Book, R: Read, W: Write>(
    alloc: Global,
    desk: &mut Desk<B>,
    feed: &mut UntilOrder<R>,
    writer: &mut W,
) -> Result<(), WorkFault>
    ensures { Ended (lines_to_order B.Book desk (fed R.Read W.Write feed writer)) result }
{
    match lines_with_reads(alloc, desk, false, feed, writer) {
        Ok(()) => Err(WorkFault::NotTold),
        Err(LinesFault::Read) if feed.is_told() => Ok(()),
        Err(fault) => Err(WorkFault::from(fault)),
    }
}

// Answers lines at a listener, where there is one, and then connections.
fn stand_by_at<D: Door + Drop, B: Book, R: Read, W: Write, E: Write>(
    rt: &HostRuntime,
    door: io::Result<D>,
    desk: &mut Desk<B>,
    serving: Serving<'_>,
    feed: &mut UntilOrder<R>,
    writer: &mut W,
    errors: &mut E,
) -> Result<(), WorkFault>
    ensures { StandsBy B.Book desk result (upon serving R.Read W.Write E.Write
        (feed, writer, errors)) }
{
    let mut door = listening(door)?;
    follow(rt.alloc(), desk, feed, writer)?;
    say_and_answer(rt, &mut door, desk, serving, writer, errors)
}

fn stand_by_desk<B: Book, R: Read, W: Write, E: Write>(
    rt: &HostRuntime,
    desk: &mut Desk<B>,
    serving: Serving<'_>,
    feed: &mut UntilOrder<R>,
    writer: &mut W,
    errors: &mut E,
) -> Result<(), WorkFault>
    ensures { StandsBy B.Book desk result (upon serving R.Read W.Write E.Write
        (feed, writer, errors)) }
{
    let alloc = rt.alloc();
    match serving.address {
        Address::Port(port) => {
            let door = Polled::at_port(rt, alloc, port);
            stand_by_at(rt, door, desk, serving, feed, writer, errors)
        }
        Address::Socket(path) => {
            let door = Polled::at_path(rt, alloc, path);
            stand_by_at(rt, door, desk, serving, feed, writer, errors)
        }
    }
}

fn stand_by_book<B: Book, R: Read, W: Write, E: Write>(
    rt: &HostRuntime,
    book: B,
    serving: Serving<'_>,
    feed: &mut UntilOrder<R>,
    writer: &mut W,
    errors: &mut E,
) -> (Result<(), WorkFault>, B)
    ensures { StandsByOver B.Book book result (upon serving R.Read W.Write E.Write
        (feed, writer, errors)) }
{
    let mut desk = match Desk::open(rt.alloc(), book) {
        Ok(desk) => desk,
        Err((fault, book)) => return (Err(WorkFault::from(fault)), book),
    };
    let done = stand_by_desk(rt, &mut desk, serving, feed, writer, errors);
    (done, desk.close())
}

/// Answers the lines of a reader up to the order and, where it comes, connections as a service does, by the same desk. It
/// listens before it reads, so that whoever connects waits; while it reads, nothing ticks. The desk is that of a database,
/// which is made where there is none and one is to be made.
pub fn stand_by<S: Alter, R: Read, W: Write, E: Write>(
    rt: &HostRuntime,
    conn: Connection<S>,
    makes: bool,
    serving: Serving<'_>,
    feed: &mut UntilOrder<R>,
    writer: &mut W,
    errors: &mut E,
) -> (Result<(), WorkFault>, Connection<S>)
    requires { conn.in_transaction ≡ false }
    ensures idle { result.1.in_transaction ≡ false }
    ensures ended { StandsByIn (database S.Store makes conn) result
        (upon serving R.Read W.Write E.Write (feed, writer, errors)) }
{
    let book = match book_over(rt.alloc(), conn, makes) {
        Ok(book) => book,
        Err((fault, conn)) => return (Err(WorkFault::from(fault)), conn),
    };
    let (done, book) = stand_by_book(rt, book, serving, feed, writer, errors);
    (done, book.into_connection())
}
