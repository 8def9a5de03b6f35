//! The answer to one line.

ghost use Rattle.acd_desk.specs.Desks.DeskCalls.{state_of};
ghost use Rattle.acd_lines.specs.Input.{request_read, arrival};
ghost use Rattle.acd_lines.specs.Answers.{AnsweredBy};

use acd_book::Book;
use acd_codec::{FixedAnswer, ReadFault, RequestReader};
use acd_desk::{AnswerText, Desk};
use acd_terms::Request;

/// The answer to a request that comes in at a moment.
pub(crate) fn execute<B: Book>(desk: &mut Desk<B>, moment: u32, request: &Request) -> AnswerText
    ensures { AnsweredBy (state_of B.Book) desk.old (arrival moment request.now) result desk.new }
{
    desk.take_text(moment, request)
}

/// The answer to a request as JSON.
pub(crate) fn read<B: Book>(
    requests: &mut RequestReader,
    desk: &mut Desk<B>,
    moment: u32,
    json: &[u8],
) -> AnswerText
    ensures { AnsweredBy (state_of B.Book) desk.old (request_read moment json.now) result desk.new }
{
    let read = requests.read(json);
    match &read {
        Ok(request) => execute(desk, moment, request),
        Err(ReadFault::Malformed(member)) => AnswerText::malformed(*member),
        Err(ReadFault::NoMemory) => AnswerText::fixed(FixedAnswer::NoMemory),
    }
}
