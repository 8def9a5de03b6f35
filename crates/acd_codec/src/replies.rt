//! Replies as JSON.

ghost use Rattle.std.specs.Prelude.{◌≡◌, codes, IfOk, string_bytes};
ghost use Rattle.serde_json.specs.Data.{object, no_members};
ghost use Rattle.acd_codec.specs.ReplyTexts.{outcome_status, rejected_code, rejected_name, rejected_status, result_of, error_of, error_data, reply_data, reply_text, rejected_text};
ghost use Rattle.acd_codec.specs.Tokens.{AddsData, AddsMembers, AddsMember};

use crate::writing::{put_number, put_text, put_whom, text_of};
use acd_terms::{Answer, Invoke, Outcome, Requester};
use json::Writer;
use std::alloc::{AllocError, Global};

/// Why a well formed request is not executed.
#[derive(Clone, Copy, Debug, PartialEq, Eq)]
pub enum Rejected {
    /// The key is kept with another request.
    InvokeReused,
    /// The key is new, and the desk keeps as many requests as it may.
    DeskFull,
}

impl Rejected {
    fn code(self) -> u8
        ensures { result ≡ rejected_code self }
    {
        match self {
            Rejected::InvokeReused => 31,
            Rejected::DeskFull => 32,
        }
    }

    fn name(self) -> &'static str
        ensures { result.now ≡ rejected_name self }
    {
        match self {
            Rejected::InvokeReused => "invokeReused",
            Rejected::DeskFull => "deskFull",
        }
    }

    /// The status, as of HTTP.
    pub fn status(self) -> u16
        ensures { result ≡ rejected_status self }
    {
        match self {
            Rejected::InvokeReused => 422,
            Rejected::DeskFull => 507,
        }
    }
}

/// The status of an executed request, as of HTTP.
pub fn outcome_status(outcome: Outcome) -> u16
    ensures { result ≡ outcome_status outcome }
{
    match outcome {
        Outcome::Done(_) => 200,
        Outcome::Refused(_) => 409,
    }
}

// Every reply fits, so it never grows.
const ROOM: usize = 128;

// Writes what a service answers.
fn put_answer(out: &mut Writer, answer: Answer) -> Result<(), AllocError>
    ensures { AddsMembers result out.old out.new (result_of answer) }
{
    match answer {
        Answer::Nothing => Ok(()),
        Answer::Call(call) => put_number(out, "call", call),
        Answer::Monitor(monitor) => put_number(out, "monitor", monitor),
        Answer::State(state) => put_text(out, "state", state.name()),
        Answer::Pending { state, pending } => {
            put_text(out, "pending", pending.name())?;
            put_text(out, "state", state.name())
        }
    }
}

fn put_result(out: &mut Writer, answer: Answer) -> Result<(), AllocError>
    ensures { AddsMember result out.old out.new (codes "result") (object (result_of answer)) }
{
    out.key("result")?;
    out.begin_object()?;
    put_answer(out, answer)?;
    out.end_object()
}

fn put_error(out: &mut Writer, code: u8, name: &str) -> Result<(), AllocError>
    ensures { AddsMembers result out.old out.new (error_of code name.now no_members) }
{
    out.key("error")?;
    out.begin_object()?;
    put_number(out, "code", u64::from(code))?;
    put_text(out, "name", name)?;
    out.end_object()
}

// Writes why nothing was done, and whose request it was.
fn write_error(
    out: &mut Writer,
    code: u8,
    name: &str,
    requester: &Requester,
    invoke: Invoke,
) -> Result<(), AllocError>
    ensures { AddsData result out.old out.new (error_data code name.now requester.now invoke) }
{
    out.begin_object()?;
    put_error(out, code, name)?;
    put_whom(out, requester, invoke)?;
    out.end_object()
}

// Writes what was done.
fn write_done(
    out: &mut Writer,
    requester: &Requester,
    invoke: Invoke,
    answer: Answer,
) -> Result<(), AllocError>
    ensures { AddsData result out.old out.new
        (reply_data requester.now invoke (Outcome.Done answer)) }
{
    out.begin_object()?;
    put_whom(out, requester, invoke)?;
    put_result(out, answer)?;
    out.end_object()
}

fn write_reply(
    out: &mut Writer,
    requester: &Requester,
    invoke: Invoke,
    outcome: Outcome,
) -> Result<(), AllocError>
    ensures { AddsData result out.old out.new (reply_data requester.now invoke outcome) }
{
    match outcome {
        Outcome::Done(answer) => write_done(out, requester, invoke, answer),
        Outcome::Refused(refusal) => {
            write_error(out, refusal.code(), refusal.name(), requester, invoke)
        }
    }
}

/// The reply to an executed request (status [`outcome_status`]).
#[tactic(auto, unfolding(crate::specs::ReplyTexts::reply_text))]
pub fn reply_text(
    alloc: Global,
    requester: &Requester,
    invoke: Invoke,
    outcome: Outcome,
) -> Result<String, AllocError>
    ensures { IfOk result (λ s. string_bytes s ≡ reply_text requester.now invoke outcome) }
{
    let mut out = Writer::new(Vec::with_capacity(alloc, ROOM)?);
    write_reply(&mut out, requester, invoke, outcome)?;
    text_of(out)
}

/// The reply to a request that is not executed (status [`Rejected::status`]).
#[tactic(auto, unfolding(crate::specs::ReplyTexts::rejected_text))]
pub fn rejected_text(
    alloc: Global,
    requester: &Requester,
    invoke: Invoke,
    rejected: Rejected,
) -> Result<String, AllocError>
    ensures { IfOk result (λ s. string_bytes s ≡ rejected_text requester.now invoke rejected) }
{
    let mut out = Writer::new(Vec::with_capacity(alloc, ROOM)?);
    write_error(
        &mut out,
        rejected.code(),
        rejected.name(),
        requester,
        invoke,
    )?;
    text_of(out)
}
