//! One request, and its reply.

ghost use Rattle.std.specs.Prelude.{◌≡◌, IfErr, ◌++◌, cond, []};
ghost use Rattle.acd_io.specs.SentBytes.{Sends};
ghost use Rattle.acd_lines.specs.Lines.{streamed};
ghost use Rattle.acd_http.specs.Exchange.{reply_out, ExchangeDoneAt};

use crate::answer::{Reply, answered, fixed};
use crate::head_text::HeadText;
use crate::input::Input;
use crate::reply::reply_head;
use crate::routes::Routes;
use crate::web_request::{ParseFault, parse};
use acd_book::Book;
use acd_codec::FixedAnswer;
use acd_desk::Desk;
use acd_io::{Stopped, most_calls, send};
use std::alloc::{AllocError, Global};
use std::io::{Read, Write};
use thiserror::Error;

/// Why a request got no reply, or a part of it.
#[derive(Clone, Copy, Debug, PartialEq, Eq, Error)]
pub enum ExchangeFault {
    /// The input ended before the request did. Nothing was written, and nothing has changed.
    #[error("truncated")]
    Truncated,
    /// The reader failed, or was called as often as it may be. Nothing was written, and nothing has changed.
    #[error("read")]
    Read,
    /// The writer failed, or was called as often as it may be. The request remains as it was answered.
    #[error("write")]
    Write,
    /// There was no memory for the buffer. Nothing was read.
    #[error("no memory")]
    NoMemory,
}

fn body_sent(bodiless: bool, body: &[u8]) -> &[u8]
    ensures { result.now ≡ cond bodiless [] body.now }
{
    if bodiless { b"" } else { body }
}

// Sends a head and its body: where the body fits after the head, by one call, so that both are sent together.
fn send_both<W: Write>(
    writer: &mut W,
    calls: &mut u64,
    head: &mut HeadText,
    body: &[u8],
) -> Result<(), Stopped>
    ensures { Sends W.contents writer.old writer.new result (head.old ++ body.now) }
{
    if body.len() <= head.room() {
        head.push(body);
        return send(writer, calls, head.as_slice());
    }
    send(writer, calls, head.as_slice())?;
    send(writer, calls, body)
}

// Writes a reply.
fn respond<W: Write>(writer: &mut W, bodiless: bool, reply: &Reply) -> Result<(), ExchangeFault>
    ensures sent { Sends W.contents writer.old writer.new result (reply_out bodiless reply.now) }
    ensures fault { IfErr result (λ fault. fault ≡ ExchangeFault.Write) }
{
    let mut calls = most_calls();
    let body = reply.answer.body();
    let mut head = reply_head(reply.answer.status(), reply.kind, body.len(), reply.allow);
    match send_both(writer, &mut calls, &mut head, body_sent(bodiless, body)) {
        Ok(()) => Ok(()),
        Err(Stopped) => Err(ExchangeFault::Write),
    }
}

/// Reads one request, and writes its reply. `moment` is in seconds.
///
/// The reader is read until the request has come whole, and maybe further. The reply's body is made before
/// anything is kept, so want of memory can't change it afterwards.
pub fn exchange<B: Book, R: Read, W: Write>(
    alloc: Global,
    routes: &Routes,
    desk: &mut Desk<B>,
    moment: u32,
    reader: &mut R,
    writer: &mut W,
) -> Result<(), ExchangeFault>
    ensures { ExchangeDoneAt B.Book moment (streamed R.Read W.Write reader writer) desk result }
{
    let mut input = match Input::new(alloc) {
        Ok(input) => input,
        Err(AllocError) => return Err(ExchangeFault::NoMemory),
    };
    match parse(alloc, routes, reader, &mut input) {
        Ok(asked) => match answered(desk, moment, asked) {
            Some(reply) => respond(writer, asked.is_bodiless(), &reply),
            None => Err(ExchangeFault::Truncated),
        },
        Err(ParseFault::NoMemory(bodiless)) => respond(
            writer,
            bodiless,
            &fixed(FixedAnswer::NoMemory),
        ),
        Err(ParseFault::Stopped) => Err(ExchangeFault::Read),
    }
}
