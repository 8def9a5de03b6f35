//! Why a request is answered without the desk.

ghost use Rattle.std.specs.Prelude.{◌≡◌, ◌≤◌, length};
ghost use Rattle.acd_http.specs.RefusalReplies.{part_text};

use acd_codec::{FixedAnswer, MALFORMED_STATUS, Member};
use acd_desk::AnswerText;

/// A part of a request that can be malformed, beside the members of its body.
#[derive(Clone, Copy, Debug, PartialEq, Eq)]
pub enum Part {
    /// The bytes aren't a head.
    Head,
    /// There is no Host field, or more than one.
    Host,
    /// There is more than one Content-Length field, or it isn't a number.
    ContentLength,
    /// The query names `after` twice, or not as a number.
    After,
}

impl Part {
    /// The body of the reply. It takes no memory.
    pub(crate) fn malformed_text(self) -> &'static str
        ensures { result.now ≡ part_text self }
    {
        match self {
            Part::Head => "{\"error\":{\"code\":30,\"member\":\"head\",\"name\":\"malformed\"}}",
            Part::Host => "{\"error\":{\"code\":30,\"member\":\"host\",\"name\":\"malformed\"}}",
            Part::ContentLength =>
                "{\"error\":{\"code\":30,\"member\":\"contentLength\",\"name\":\"malformed\"}}",
            Part::After => "{\"error\":{\"code\":30,\"member\":\"after\",\"name\":\"malformed\"}}",
        }
    }
}

/// The methods that a route has.
#[derive(Clone, Copy, Debug, PartialEq, Eq)]
pub enum Allow {
    /// GET and HEAD.
    Reads,
    /// POST.
    Posts,
}

/// Why a request is answered without the desk.
#[derive(Clone, Copy, Debug, PartialEq, Eq)]
pub enum Refused {
    /// The head is longer than 8192 bytes, or has more than 32 fields.
    HeadTooLarge,
    /// A part of the head or the query is malformed.
    Malformed(Part),
    /// This member of the request in the body is the first faulty one.
    Body(Member),
    /// A transfer coding, or another method than GET, HEAD and POST.
    NotImplemented,
    /// There is no such route, or its identifier isn't well formed.
    NotFound,
    /// The route has other methods.
    MethodNotAllowed(Allow),
    /// A request without Content-Length.
    LengthRequired,
    /// A body of more than 4096 bytes.
    BodyTooLarge,
}

impl Refused {
    ghost use Rattle.std.specs.Prelude.{◌≡◌, None};
    ghost use Rattle.acd_desk.specs.Reads.AnswerTexts.{said};
    ghost use Rattle.acd_http.specs.RefusalReplies.{refused_said, refused_allow};

    /// The answer. It takes no memory.
    pub fn answer(self) -> AnswerText
        ensures { said result ≡ refused_said self }
    {
        match self {
            Refused::HeadTooLarge => AnswerText::fixed(FixedAnswer::HeadTooLarge),
            Refused::Malformed(part) => AnswerText::Fixed {
                status: MALFORMED_STATUS,
                body: part.malformed_text(),
            },
            Refused::Body(member) => AnswerText::malformed(member),
            Refused::NotImplemented => AnswerText::fixed(FixedAnswer::NotImplemented),
            Refused::NotFound => AnswerText::fixed(FixedAnswer::NotFound),
            Refused::MethodNotAllowed(_) => AnswerText::fixed(FixedAnswer::MethodNotAllowed),
            Refused::LengthRequired => AnswerText::fixed(FixedAnswer::LengthRequired),
            Refused::BodyTooLarge => AnswerText::fixed(FixedAnswer::BodyTooLarge),
        }
    }

    /// The value of the reply's Allow field, if it has one.
    pub(crate) fn allow(self) -> Option<Allow>
        ensures { result ≡ refused_allow self }
    {
        match self {
            Refused::MethodNotAllowed(allow) => Some(allow),
            Refused::HeadTooLarge
            | Refused::Malformed(_)
            | Refused::Body(_)
            | Refused::NotImplemented
            | Refused::NotFound
            | Refused::LengthRequired
            | Refused::BodyTooLarge => None,
        }
    }
}
