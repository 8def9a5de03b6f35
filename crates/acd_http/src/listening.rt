//! Connections of a listener that only blocks, answered one after the other.

ghost use Rattle.acd_lines.specs.Lines.{written};
ghost use Rattle.acd_http.specs.ConnectionsInTurn.{SoMany, UntilFailed};
ghost use Rattle.acd_http.specs.RouteMemory.{IfServed, IfUnrouted};
ghost use Rattle.std.specs.Prelude.{◌≡◌};

use crate::serving::{ServeFault, Span, serve};
use acd_book::Book;
use acd_desk::Desk;
use std::alloc::Global;
use std::io::Write;
use std::net::TcpListener;
use std::time::Clock;

/// Answers so many connections, one after the other, each by an [`exchange`](crate::exchange) at the clock's moment, and
/// closes them. The fault of a connection is a line, `acd: connection N: truncated`, where N counts them from 1; where
/// none could be accepted the word is `read`. After a fault the next one is answered.
pub fn serve_on<B: Book, C: Clock, E: Write>(
    clock: &C,
    alloc: Global,
    listener: &TcpListener,
    desk: &mut Desk<B>,
    connections: u64,
    errors: &mut E,
) -> Result<(), ServeFault>
    // the lines were written or, where one of them could not be, a beginning of them and not all
    ensures answered { IfServed result (written E.Write errors) (SoMany B.Book connections desk) }
    ensures memory { IfUnrouted result ((desk.new ≡ desk.old) × (errors.new ≡ errors.old)) }
{
    let mut door = listener;
    let span = Span::new(Some(connections));
    serve(clock, alloc, &mut door, desk, span, errors)
}

/// Answers connections as [`serve_on`] does, until the desk has failed: the connection in which it did is the last. Its
/// number of connections has 64 bits; at the greatest one it stops.
pub fn serve_until_failed<B: Book, C: Clock, E: Write>(
    clock: &C,
    alloc: Global,
    listener: &TcpListener,
    desk: &mut Desk<B>,
    errors: &mut E,
) -> Result<(), ServeFault>
    // the lines were written or, where one of them could not be, a beginning of them and not all
    ensures answered { IfServed result (written E.Write errors) (UntilFailed B.Book desk) }
    ensures memory { IfUnrouted result ((desk.new ≡ desk.old) × (errors.new ≡ errors.old)) }
{
    let mut door = listener;
    let span = Span::new(None);
    serve(clock, alloc, &mut door, desk, span, errors)
}
