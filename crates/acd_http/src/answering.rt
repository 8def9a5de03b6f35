//! One connection, answered.

ghost use Rattle.acd_desk.specs.Desks.DeskCalls.{state_of};
ghost use Rattle.acd_http.specs.ConnectionsInTurn.{AnsweredOne};

use crate::exchanging::{ExchangeFault, exchange};
use crate::moment::moment_now;
use crate::patient::Patient;
use crate::peer::Peer;
use crate::routes::Routes;
use acd_book::Book;
use acd_desk::Desk;
use std::alloc::Global;
use std::time::{Clock, Duration};

/// How often more is read than the request, at most.
const REST_READS: u8 = 16;

// Takes what has come beyond the request, and waits for no more: a connection that is closed over bytes that were not
// read is reset, and its peer may lose the reply.
fn take_rest<P: Peer>(peer: &P) {
    let mut chunk = [0u8; 4096];
    for _ in 0..REST_READS {
        match peer.read_within(Some(Duration::ZERO), &mut chunk) {
            Ok(0) | Err(_) => return,
            Ok(_) => {}
        }
    }
}

// The moment is that at which the connection was accepted.
fn exchange_with<B: Book, C: Clock, P: Peer>(
    clock: &C,
    alloc: Global,
    routes: &Routes,
    peer: &P,
    patience: Option<Duration>,
    desk: &mut Desk<B>,
) -> Result<(), ExchangeFault>
    ensures { AnsweredOne (state_of B.Book) desk.old result desk.new }
{
    let mut reader = Patient::from_now(peer, clock, patience);
    let mut writer = Patient::from_first(peer, clock, patience);
    let moment = moment_now(clock);
    exchange(alloc, routes, desk, moment, &mut reader, &mut writer)
}

/// Answers a connection that was just accepted. `patience` is how long its request is waited for, and then its reply to be
/// taken.
pub(crate) fn answer_peer<B: Book, C: Clock, P: Peer>(
    clock: &C,
    alloc: Global,
    routes: &Routes,
    peer: &P,
    patience: Option<Duration>,
    desk: &mut Desk<B>,
) -> Result<(), ExchangeFault>
    ensures { AnsweredOne (state_of B.Book) desk.old result desk.new }
{
    let outcome = exchange_with(clock, alloc, routes, peer, patience, desk);
    take_rest(peer);
    outcome
}
