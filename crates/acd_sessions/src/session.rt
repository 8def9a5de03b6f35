//! Lines over a book, from the opening of its desk to the end.

ghost use Rattle.std.specs.Prelude.{◌≡◌, ◌&&◌, false, OnOk};
ghost use Rattle.acd_desk.specs.Desks.DeskState.{state_of};
ghost use Rattle.acd_lines.specs.Questions.{by_questions};
ghost use Rattle.acd_sessions.specs.Faults.{desk_result};
ghost use Rattle.acd_sessions.specs.LinesOver.{LinesLeaveDesk, LinesLeaveBook};
ghost use Rattle.acd_lines.specs.Lines.{streamed};

use crate::fault::WorkFault;
use acd_book::Book;
use acd_desk::Desk;
use acd_lines::{Answering, answer_lines};
use std::alloc::Global;
use std::io::{Read, Write};

/// A failure of the store is a fault of the command.
pub(crate) fn unless_failed<B: Book>(desk: &Desk<B>) -> Result<(), WorkFault>
    ensures ended { result ≡ desk_result (state_of B.Book desk.now).failed }
    ensures well { OnOk result ((state_of B.Book desk.now).failed ≡ false) }
{
    if desk.has_failed() {
        return Err(WorkFault::Store);
    }
    Ok(())
}

// It is where that was to end the lines.
fn ended<B: Book>(desk: &Desk<B>, ends: bool) -> Result<(), WorkFault>
    ensures { result ≡ desk_result (ends && (state_of B.Book desk.now).failed) }
{
    if ends {
        return unless_failed(desk);
    }
    Ok(())
}

// Answers each line until the input ends or, where that is asked for, the desk fails.
fn answer<B: Book, A: Answering<B>, R: Read, W: Write>(
    alloc: Global,
    lines: &mut A,
    desk: &mut Desk<B>,
    ends: bool,
    reader: &mut R,
    writer: &mut W,
) -> Result<(), WorkFault>
    ensures { LinesLeaveDesk (by_questions A.Answering B.Book ends)
        (streamed R.Read W.Write reader writer) desk result }
{
    answer_lines(alloc, lines, desk, ends, reader, writer)?;
    ended(desk, ends)
}

/// Opens a desk over the book, answers each line, and gives the book back. A storeFault is an answer like
/// any other, unless it is asked for that it ends the lines: those of its read are then the last.
pub fn lines_over_book<B: Book, A: Answering<B>, R: Read, W: Write>(
    alloc: Global,
    lines: &mut A,
    book: B,
    ends: bool,
    reader: &mut R,
    writer: &mut W,
) -> (Result<(), WorkFault>, B)
    ensures { LinesLeaveBook B.Book book (by_questions A.Answering B.Book ends)
        (streamed R.Read W.Write reader writer) result }
{
    let mut desk = match Desk::open(alloc, book) {
        Ok(desk) => desk,
        Err((fault, book)) => return (Err(WorkFault::from(fault)), book),
    };
    let done = answer(alloc, lines, &mut desk, ends, reader, writer);
    (done, desk.close())
}
