//! The turns of a service: connections that are answered one after the other, and looks at the desk between them.

ghost use Rattle.std.specs.Prelude.{◌≡◌, true, false, None, IfSome, IfNone};
ghost use Rattle.acd_io.specs.SentBytes.{Sends};
ghost use Rattle.acd_desk.specs.Desks.DeskCalls.{state_of};
ghost use Rattle.acd_lines.specs.Lines.{written};
ghost use Rattle.acd_http.specs.ConnectionsInTurn.{AnsweredOne};
ghost use Rattle.acd_http.specs.RouteMemory.{IfServed, IfUnrouted};
ghost use Rattle.acd_http.specs.Turns.{LooksAtClock, Serves, EndsWithDesk, GoesOn};

use crate::answering::answer_peer;
use crate::door::Door;
use crate::exchanging::ExchangeFault;
use crate::outcome_lines::print_next;
use crate::peer::Peer;
use crate::routes::Routes;
use crate::watch::Watch;
use acd_book::Book;
use acd_desk::Desk;
use acd_io::Stopped;
use std::alloc::Global;
use std::io::{self, ErrorKind, Write};
use std::time::{Clock, Duration};
use thiserror::Error;

/// Why fewer connections were answered than was asked for.
#[derive(Clone, Copy, Debug, PartialEq, Eq, Error)]
pub enum ServeFault {
    /// There was no memory for the routes. No connection was accepted.
    #[error("no memory")]
    NoMemory,
    /// A line could not be written, and none after it was. All connections were answered.
    #[error("write")]
    Write,
}

/// How long a service lasts, and how long it waits.
#[derive(Clone, Copy, Debug)]
pub struct Span {
    /// How many connections it answers; where there is no number, it answers them until the desk has failed.
    pub connections: Option<u64>,
    /// How often it looks whether something is overdue, and has the desk tick where it is; where there is no time, never.
    pub step: Option<Duration>,
    /// How long it waits for a request, and then for its reply to be taken; where there is no time, as long as it takes.
    pub patience: Option<Duration>,
}

impl Span {
    /// One that never looks at the desk, and waits as long as it takes.
    pub fn new(connections: Option<u64>) -> Span
        ensures connections { result.connections ≡ connections }
        ensures step { result.step ≡ None }
        ensures patience { result.patience ≡ None }
    {
        Span {
            connections,
            step: None,
            patience: None,
        }
    }
}

// Whether the service has come to its end with the desk.
fn has_ended<B: Book>(span: Span, desk: &Desk<B>) -> bool
    ensures ended { result ≡ true → EndsWithDesk B.Book span desk.now }
    ensures goes_on { result ≡ false → GoesOn B.Book span desk.now }
{
    span.connections.is_none() && desk.has_failed()
}

// The next connection, or why none could be accepted. Until it comes the desk is looked at in time; there is none where
// the service ends with the desk.
fn next_peer<B: Book, C: Clock, D: Door, E: Write>(
    clock: &C,
    span: Span,
    door: &mut D,
    desk: &mut Desk<B>,
    watch: &mut Watch,
    errors: &mut E,
) -> Option<io::Result<D::Peer>>
    ensures looks { LooksAtClock B.Book span desk watch (written E.Write errors) }
    ensures ended { IfNone result (EndsWithDesk B.Book span desk.new) }
    ensures goes_on { IfSome result (λ peer. GoesOn B.Book span desk.new) }
{
    for _ in 0..u64::MAX {
        watch.look_in_time(clock, span, desk, errors);
        if has_ended(span, desk) {
            return None;
        }
        match door.accept_within(watch.time_left(clock, span.step)) {
            Ok(Some(peer)) => return Some(Ok(peer)),
            Ok(None) => {}
            Err(error) => return Some(Err(error)),
        }
    }
    if has_ended(span, desk) {
        return None;
    }
    Some(Err(io::Error::from(ErrorKind::TimedOut)))
}

// Answers a connection, where one could be accepted.
fn answer_next<B: Book, C: Clock, P: Peer + Drop>(
    clock: &C,
    alloc: Global,
    routes: &Routes,
    next: io::Result<P>,
    patience: Option<Duration>,
    desk: &mut Desk<B>,
) -> Result<(), ExchangeFault>
    ensures { AnsweredOne (state_of B.Book) desk.old result desk.new }
{
    let Ok(peer) = next else {
        return Err(ExchangeFault::Read);
    };
    answer_peer(clock, alloc, routes, &peer, patience, desk)
}

// Answers connections, as many as is asked for.
fn take_turns<B: Book, C: Clock, D: Door, E: Write>(
    clock: &C,
    alloc: Global,
    routes: &Routes,
    span: Span,
    door: &mut D,
    desk: &mut Desk<B>,
    errors: &mut E,
) -> Result<(), Stopped>
    ensures { Serves B.Book span desk (Sends E.contents errors.old errors.new result) }
{
    let mut watch = Watch::new();
    for before in 0..span.connections.unwrap_or(u64::MAX) {
        let Some(next) = next_peer(clock, span, door, desk, &mut watch, errors) else {
            return watch.printed;
        };
        let outcome = answer_next(clock, alloc, routes, next, span.patience, desk);
        watch.printed = print_next(watch.printed, errors, before + 1, outcome);
    }
    watch.printed
}

/// Answers connections, one after the other, each by an [`exchange`] at the clock's moment, and closes them: so many,
/// or until the desk has failed, and then the connection or the tick in which it did is the last. Where a step is given,
/// the desk is looked at each time that it has passed, while no connection comes and after each one, and at once at the
/// start; where something is overdue, it ticks.
///
/// The fault of a connection is a line, `acd: connection N: truncated`, where N counts them from 1; where none could be
/// accepted the word is `read`. After a fault the next one is answered. The fault of a tick is a line `acd: tick: no
/// memory`, each once an hour at most.
pub fn serve<B: Book, C: Clock, D: Door, E: Write>(
    clock: &C,
    alloc: Global,
    door: &mut D,
    desk: &mut Desk<B>,
    span: Span,
    errors: &mut E,
) -> Result<(), ServeFault>
    // the lines were written or, where one of them could not be, a beginning of them and not all
    ensures answered { IfServed result (written E.Write errors) (Serves B.Book span desk) }
    ensures memory { IfUnrouted result ((desk.new ≡ desk.old) × (errors.new ≡ errors.old)) }
{
    let Ok(routes) = Routes::new(alloc) else {
        return Err(ServeFault::NoMemory);
    };
    match take_turns(clock, alloc, &routes, span, door, desk, errors) {
        Ok(()) => Ok(()),
        Err(Stopped) => Err(ServeFault::Write),
    }
}
