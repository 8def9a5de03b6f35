//! Answers in text.

ghost use Rattle.std.specs.Prelude.{◌≡◌};
ghost use Rattle.acd_desk.specs.Contents.Arrivals.{arrival_at};
ghost use Rattle.acd_desk.specs.Reads.AnswerTexts.{said, IsRejection, IsSaid, DeskSays};

use crate::desk::Desk;
use crate::fault::DeskFault;
use crate::taken::Taken;
use acd_book::{Book, Text};
use acd_codec::{FixedAnswer, MALFORMED_STATUS, Member, Rejected, rejected_text};
use acd_terms::Request;
use std::alloc::{AllocError, Global};

/// An answer in text: its status, as of HTTP, and a body that was made for it or is the same for all.
#[derive(Drop)]
pub enum AnswerText {
    Made { status: u16, body: Text },
    Fixed { status: u16, body: &'static str },
}

impl AnswerText {
    ghost use Rattle.std.specs.Prelude.{◌≡◌};
    ghost use Rattle.acd_desk.specs.Reads.AnswerTexts.{said, fixed_said, malformed_said, found_said, seen_text};

    /// An answer that is the same for all. It takes no memory.
    pub fn fixed(answer: FixedAnswer) -> AnswerText
        ensures { said result ≡ fixed_said answer }
    {
        AnswerText::Fixed {
            status: answer.status(),
            body: answer.text(),
        }
    }

    /// The faulty member of a request. It takes no memory.
    pub fn malformed(member: Member) -> AnswerText
        ensures { said result ≡ malformed_said member }
    {
        AnswerText::Fixed {
            status: MALFORMED_STATUS,
            body: member.malformed_text(),
        }
    }

    /// The answer to a question, by what the desk read. It takes no memory.
    pub fn found(found: Result<Option<String>, DeskFault>) -> AnswerText
        ensures { said result ≡ found_said (seen_text found) }
    {
        match found {
            Ok(Some(text)) => AnswerText::Made {
                status: 200,
                body: Text::new(text),
            },
            Ok(None) => AnswerText::fixed(FixedAnswer::NotFound),
            Err(DeskFault::NoMemory) => AnswerText::fixed(FixedAnswer::NoMemory),
            Err(DeskFault::StoreFault) => AnswerText::fixed(FixedAnswer::StoreFault),
        }
    }

    /// The status, as of HTTP.
    pub fn status(&self) -> u16
        ensures { result ≡ (said self.now).status }
    {
        match self {
            AnswerText::Made { status, .. } => *status,
            AnswerText::Fixed { status, .. } => *status,
        }
    }

    /// The body.
    pub fn body(&self) -> &[u8]
        ensures { result.now ≡ (said self.now).body }
    {
        match self {
            AnswerText::Made { body, .. } => body.as_str().as_bytes(),
            AnswerText::Fixed { body, .. } => body.as_bytes(),
        }
    }
}

// The text takes memory, and where there is none the answer is noMemory.
fn rejected(alloc: Global, request: &Request, why: Rejected) -> AnswerText
    ensures { IsRejection request.now why (said result) }
{
    match rejected_text(alloc, &request.requester, request.invoke, why) {
        Ok(body) => AnswerText::Made {
            status: why.status(),
            body: Text::new(body),
        },
        Err(AllocError) => AnswerText::fixed(FixedAnswer::NoMemory),
    }
}

// The text of the answer to a request.
fn text_of(alloc: Global, request: &Request, taken: Taken) -> AnswerText
    ensures { IsSaid request.now taken (said result) }
{
    match taken {
        Taken::Reply { status, body } => AnswerText::Made { status, body },
        Taken::InvokeReused => rejected(alloc, request, Rejected::InvokeReused),
        Taken::DeskFull => rejected(alloc, request, Rejected::DeskFull),
        Taken::NoMemory => AnswerText::fixed(FixedAnswer::NoMemory),
        Taken::StoreFault => AnswerText::fixed(FixedAnswer::StoreFault),
    }
}

impl<B: Book> Desk<B> {
    /// Executes one arrival, as [`Desk::take`] does, and answers it in text. Where the text of a rejection finds no
    /// memory the answer is noMemory.
    pub fn take_text(&mut self, moment: u32, request: &Request) -> AnswerText
        ensures { DeskSays B.Book self.old (arrival_at moment request.now) (said result) self.new }
    {
        let taken = self.take(moment, request);
        text_of(self.alloc, request, taken)
    }
}
