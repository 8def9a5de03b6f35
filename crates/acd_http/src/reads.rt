//! The reply to a read.

ghost use Rattle.std.specs.Prelude.{◌≡◌};
ghost use Rattle.acd_desk.specs.Reads.AnswerTexts.{seen_text};
ghost use Rattle.acd_http.specs.Exchange.{kind_found, found_reply, RepliesAs, RepliesToRead};

use crate::answer::Reply;
use crate::reply::Kind;
use acd_book::Book;
use acd_desk::{AnswerText, Desk, DeskFault, Question};

// The answer is JSON where nothing was found.
fn kind_found(kind: Kind, found: &Result<Option<String>, DeskFault>) -> Kind
    ensures { result ≡ kind_found kind (seen_text found.now) }
{
    match found {
        Ok(Some(_)) => kind,
        Ok(None) | Err(_) => Kind::Json,
    }
}

fn reply_to(kind: Kind, found: Result<Option<String>, DeskFault>) -> Reply
    ensures { RepliesAs result (λ bodiless. found_reply bodiless kind (seen_text found)) }
{
    let kind = kind_found(kind, &found);
    Reply {
        answer: AnswerText::found(found),
        kind,
        allow: None,
    }
}

/// The reply to a read.
pub(crate) fn found_reply<B: Book>(desk: &mut Desk<B>, moment: u32, question: Question) -> Reply
    ensures { RepliesToRead B.Book (moment, question) desk.old result desk.new }
{
    let kind = Kind::of(&question);
    let found = desk.read(moment, question);
    reply_to(kind, found)
}
