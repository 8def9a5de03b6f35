//! The question that the bytes of a connection ask.

ghost use Rattle.std.specs.Prelude.{◌≡◌, []};
ghost use Rattle.acd_io.specs.Streams.{across};
ghost use Rattle.acd_http.specs.WebRequests.{IsBodyAsked, IsHeadOf, IsSeen, IsSeenAfter, headless};

use crate::head_request::{HeadRequest, head_asked};
use crate::input::Input;
use crate::receive::{LONGEST_HEAD, read_head, read_up_to};
use crate::refused::Refused;
use crate::routes::Routes;
use acd_codec::{ReadFault, read_request};
use acd_desk::Question;
use acd_io::{Stopped, most_calls};
use acd_terms::Request;
use std::alloc::{AllocError, Global};
use std::io::Read;

/// The question that the bytes of a connection ask. Its second part says whether the reply is sent without its body, as
/// it is to HEAD.
#[derive(Clone, Copy, Debug, PartialEq, Eq)]
pub enum WebRequest {
    /// The input ends before the request does.
    Truncated,
    /// Something that is answered without the desk.
    Refused(Refused, bool),
    /// A read.
    Look(Question, bool),
    /// A request to the switch.
    Arrival(Request),
}

impl WebRequest {
    ghost use Rattle.std.specs.Prelude.{◌≡◌};
    ghost use Rattle.acd_http.specs.WebRequests.{is_bodiless};

    /// Whether the reply is sent without its body.
    pub(crate) fn is_bodiless(&self) -> bool
        ensures { result ≡ is_bodiless self.now }
    {
        match self {
            WebRequest::Refused(_, bodiless) => *bodiless,
            WebRequest::Look(_, bodiless) => *bodiless,
            WebRequest::Truncated | WebRequest::Arrival(_) => false,
        }
    }
}

/// Why it isn't known what the bytes ask.
#[derive(Clone, Copy, Debug)]
pub(crate) enum ParseFault {
    /// The reader stopped.
    Stopped,
    /// There was no memory to see it. The reply may have to go out without its body.
    NoMemory(bool),
}

// The question of an input of this length in which no head ends.
#[tactic(auto, using(std::proofs::lemmas::Bool::Decides::nat_tests))]
fn headless(len: usize) -> WebRequest
    ensures { result ≡ headless len }
{
    if len >= LONGEST_HEAD {
        WebRequest::Refused(Refused::HeadTooLarge, false)
    } else {
        WebRequest::Truncated
    }
}

// The question of a body that has come whole.
fn body_asked(alloc: Global, body: &[u8]) -> Result<WebRequest, ParseFault>
    ensures { IsBodyAsked body.now result }
{
    match read_request(alloc, body) {
        Ok(request) => Ok(WebRequest::Arrival(request)),
        Err(ReadFault::Malformed(member)) => Ok(WebRequest::Refused(Refused::Body(member), false)),
        Err(ReadFault::NoMemory) => Err(ParseFault::NoMemory(false)),
    }
}

// The head has come whole, and has this length. `first` is what the reader held at the beginning.
fn asked_after_head<R: Read>(
    alloc: Global,
    routes: &Routes,
    reader: &mut R,
    calls: &mut u64,
    input: &mut Input,
    len: usize,
) -> Result<WebRequest, ParseFault>
    requires { IsHeadOf len input.old }
    ensures { IsSeenAfter input.old (across R.remaining reader.old reader.new) result }
{
    let (bodiless, wanted) = head_asked(alloc, routes, &input.as_slice()[..len]);
    match wanted {
        Ok(HeadRequest::Refused(why)) => Ok(WebRequest::Refused(why, bodiless)),
        Ok(HeadRequest::Look(question)) => Ok(WebRequest::Look(question, bodiless)),
        Ok(HeadRequest::Body(more)) => match read_up_to(reader, calls, input, len + more) {
            Ok(true) => body_asked(alloc, &input.as_slice()[len..len + more]),
            Ok(false) => Ok(WebRequest::Truncated),
            Err(Stopped) => Err(ParseFault::Stopped),
        },
        Err(AllocError) => Err(ParseFault::NoMemory(bodiless)),
    }
}

/// Reads what the bytes ask, and no further than a read takes.
pub(crate) fn parse<R: Read>(
    alloc: Global,
    routes: &Routes,
    reader: &mut R,
    input: &mut Input,
) -> Result<WebRequest, ParseFault>
    requires { input.old ≡ [] }
    ensures { IsSeen (R.remaining reader.old) (R.remaining reader.new) result }
{
    let mut calls = most_calls();
    match read_head(reader, &mut calls, input) {
        Ok(Some(len)) => asked_after_head(alloc, routes, reader, &mut calls, input, len),
        Ok(None) => Ok(headless(input.as_slice().len())),
        Err(Stopped) => Err(ParseFault::Stopped),
    }
}
