//! Lines that ask what a GET asks, beside those that ask for a service.

ghost use Rattle.std.specs.Prelude.{◌≡◌, IfOk, Ok, Some, string_bytes};
ghost use Rattle.acd_desk.specs.Reads.AnswerTexts.{seen_text};
ghost use Rattle.acd_lines.specs.Lines.{DoneBy, streamed};
ghost use Rattle.acd_http.specs.Lookups.{target_looked};
ghost use Rattle.acd_http.specs.LinesWithReads.{is_read, as_json, SaysFound, AnswersReadWith, by_reads};

use crate::routes::Routes;
use acd_book::Book;
use acd_codec::{FixedAnswer, quoted};
use acd_desk::{AnswerText, Desk, DeskFault, Question};
use acd_lines::{Answering, LinesFault, Requests, answer_lines};
use std::alloc::{AllocError, Global};
use std::io::{Read, Write};

// The answer as JSON.
fn as_json(alloc: Global, is_plain: bool, text: String) -> Result<String, AllocError>
    ensures { IfOk result (λ s. string_bytes s ≡ as_json is_plain (string_bytes text)) }
{
    if is_plain {
        quoted(alloc, text.as_str())
    } else {
        Ok(text)
    }
}

// The text of a report as JSON takes memory, and where there is none the answer is noMemory.
fn text_line(alloc: Global, is_plain: bool, text: String) -> AnswerText
    ensures { SaysFound result is_plain (Ok (Some (string_bytes text))) }
{
    match as_json(alloc, is_plain, text) {
        Ok(body) => AnswerText::found(Ok(Some(body))),
        Err(AllocError) => AnswerText::fixed(FixedAnswer::NoMemory),
    }
}

fn found_line(alloc: Global, is_plain: bool, found: Result<Option<String>, DeskFault>) -> AnswerText
    ensures { SaysFound result is_plain (seen_text found) }
{
    match found {
        Ok(Some(text)) => text_line(alloc, is_plain, text),
        Ok(None) => AnswerText::found(Ok(None)),
        Err(fault) => AnswerText::found(Err(fault)),
    }
}

fn read_text<B: Book>(
    alloc: Global,
    desk: &mut Desk<B>,
    moment: u32,
    question: Question,
) -> AnswerText
    ensures { AnswersReadWith B.Book (moment, Ok question) desk.old result desk.new }
{
    let is_plain = question.is_plain();
    let found = desk.read(moment, question);
    found_line(alloc, is_plain, found)
}

// The answer to a GET of the target.
fn answer_read<B: Book>(
    alloc: Global,
    routes: &Routes,
    desk: &mut Desk<B>,
    moment: u32,
    target: &[u8],
) -> AnswerText
    ensures { AnswersReadWith B.Book (moment, target_looked target.now) desk.old result desk.new }
{
    match routes.look_up(alloc, target) {
        Ok(Ok(question)) => read_text(alloc, desk, moment, question),
        Ok(Err(why)) => why.answer(),
        Err(AllocError) => AnswerText::fixed(FixedAnswer::NoMemory),
    }
}

/// How a read begins.
const FRONT: &[u8] = b"GET ";

fn is_read(text: &[u8]) -> bool
    ensures { result ≡ is_read text.now }
{
    text.len() >= FRONT.len() && &text[..FRONT.len()] == FRONT
}

/// Requests, and reads.
#[derive(Drop)]
pub struct RequestsAndReads {
    routes: Routes,
    requests: Requests,
}

impl RequestsAndReads {
    /// The routes that reads ask for take memory.
    pub fn new(alloc: Global) -> Result<RequestsAndReads, AllocError> {
        match Routes::new(alloc) {
            Ok(routes) => Ok(RequestsAndReads {
                routes,
                requests: Requests::new(alloc),
            }),
            Err(_) => Err(AllocError),
        }
    }
}

impl<B: Book> Answering<B> for RequestsAndReads {
    ghost use Rattle.std.specs.Prelude.{refl};
    ghost use Rattle.acd_desk.specs.Desks.DeskCalls.{state_of};
    ghost use Rattle.acd_lines.specs.Input.{no_moment, too_long};
    ghost use Rattle.acd_http.specs.LinesWithReads.{ReadingLine, plain, text_asked, ReadingAnswers};

    ghost Asked = { ReadingLine };

    ghost unmarked = { plain no_moment };

    ghost long = { plain too_long };

    ghost read = { text_asked };

    ghost answers = { ReadingAnswers (state_of B.Book) };

    ghost needs_a_moment = { λ d. (refl, refl) };

    ghost needs_an_end = { λ d. (refl, refl) };

    fn answer(
        &mut self,
        alloc: Global,
        desk: &mut Desk<B>,
        moment: u32,
        text: &[u8],
    ) -> AnswerText {
        if is_read(text) {
            answer_read(alloc, &self.routes, desk, moment, &text[FRONT.len()..])
        } else {
            self.requests.answer(alloc, desk, moment, text)
        }
    }
}

/// Answers lines as [`acd_lines::lines`] does, and reads among them: in a read the moment is followed by `GET`, a space
/// and the target of an HTTP request. Its answer line is the status, a space and the body, a report as a JSON text, by
/// the desk that the lines before it left; it changes nothing. Where `ends` says so nothing more is read once the desk
/// has failed.
pub fn lines_with_reads<B: Book, R: Read, W: Write>(
    alloc: Global,
    desk: &mut Desk<B>,
    ends: bool,
    reader: &mut R,
    writer: &mut W,
) -> Result<(), LinesFault>
    ensures { DoneBy (by_reads B.Book ends) (streamed R.Read W.Write reader writer) desk result }
{
    let mut lines = RequestsAndReads::new(alloc)?;
    answer_lines(alloc, &mut lines, desk, ends, reader, writer)
}
