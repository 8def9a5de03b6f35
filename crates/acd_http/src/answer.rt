//! The reply to what was asked.

ghost use Rattle.acd_desk.specs.Reads.AnswerTexts.{said};
ghost use Rattle.acd_http.specs.declared.web_request.WebRequest.{WebRequest};
ghost use Rattle.acd_http.specs.Exchange.{json_reply, fixed_reply, refused_reply, RepliesAs, RepliesWith, Answered};

use crate::reads::found_reply;
use crate::refused::{Allow, Refused};
use crate::reply::Kind;
use crate::web_request::WebRequest;
use acd_book::Book;
use acd_codec::FixedAnswer;
use acd_desk::{AnswerText, Desk};
use acd_terms::Request;

/// A reply: its text, the form of that, and the value of its Allow field, if it has one.
#[derive(Drop)]
pub(crate) struct Reply {
    pub(crate) answer: AnswerText,
    pub(crate) kind: Kind,
    pub(crate) allow: Option<Allow>,
}

/// It takes no memory.
fn in_json(answer: AnswerText) -> Reply
    ensures { RepliesAs result (λ bodiless. json_reply bodiless (said answer)) }
{
    Reply {
        answer,
        kind: Kind::Json,
        allow: None,
    }
}

/// It takes no memory.
pub(crate) fn fixed(answer: FixedAnswer) -> Reply
    ensures { RepliesAs result (λ bodiless. fixed_reply bodiless answer) }
{
    in_json(AnswerText::fixed(answer))
}

/// It takes no memory.
fn refused(why: Refused) -> Reply
    ensures { RepliesAs result (λ bodiless. refused_reply bodiless why) }
{
    Reply {
        answer: why.answer(),
        kind: Kind::Json,
        allow: why.allow(),
    }
}

fn arrival<B: Book>(desk: &mut Desk<B>, moment: u32, request: &Request) -> Reply
    ensures { RepliesWith B.Book (moment, WebRequest.Arrival request.now) desk.old result desk.new }
{
    in_json(desk.take_text(moment, request))
}

/// The reply to what was asked; none where the input ended before.
pub(crate) fn answered<B: Book>(desk: &mut Desk<B>, moment: u32, asked: WebRequest) -> Option<Reply>
    ensures { Answered B.Book (moment, asked) desk.old result desk.new }
{
    match asked {
        WebRequest::Truncated => None,
        WebRequest::Refused(why, _) => Some(refused(why)),
        WebRequest::Look(question, _) => Some(found_reply(desk, moment, question)),
        WebRequest::Arrival(request) => Some(arrival(desk, moment, &request)),
    }
}
