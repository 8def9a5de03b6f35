//! Lines in, answer lines out.

ghost use Rattle.std.specs.Prelude.{true, false};
ghost use Rattle.acd_lines.specs.Lines.{DoneBy, by_requests, streamed};
ghost use Rattle.acd_lines.specs.Questions.{by_questions};

use crate::answering::{Answering, Requests};
use crate::conversation::{Conversation, Replies};
use crate::fault::LinesFault;
use crate::outbox::Outbox;
use crate::partial::Partial;
use acd_book::Book;
use acd_desk::Desk;
use std::alloc::Global;
use std::io::{Read, Write};

/// How many bytes are read at once.
const CHUNK: usize = 65_536;

/// Answers lines until the input is at its end or, where `ends` says so, the desk has failed: the question of each is
/// answered in turn, by the desk that the earlier ones left.
pub fn answer_lines<B: Book, A: Answering<B>, R: Read, W: Write>(
    alloc: Global,
    lines: &mut A,
    desk: &mut Desk<B>,
    ends: bool,
    reader: &mut R,
    writer: &mut W,
) -> Result<(), LinesFault>
    ensures { DoneBy (by_questions A.Answering B.Book ends)
        (streamed R.Read W.Write reader writer) desk result }
{
    let mut chunk = vec![in alloc; 0u8; CHUNK]?;
    let mut partial = Partial::new(alloc)?;
    let mut outbox = Outbox::new(alloc)?;
    let replies = Replies::new(alloc, lines, desk, &mut outbox, writer);
    let mut conversation = Conversation {
        replies,
        partial: &mut partial,
    };
    conversation.answer_all(ends, reader, chunk.as_mut_slice())
}

/// Writes one answer line for each line that is read. The answers to the lines that have ended are written before more
/// is read, those of one read together. No more than 4109 bytes of a line are held after a read. Calls that are
/// interrupted are made again. Want of memory in a line is its answer, and so is a store that fails.
pub fn lines<B: Book, R: Read, W: Write>(
    alloc: Global,
    desk: &mut Desk<B>,
    reader: &mut R,
    writer: &mut W,
) -> Result<(), LinesFault>
    ensures { DoneBy (by_requests B.Book false)
        (streamed R.Read W.Write reader writer) desk result }
{
    answer_lines(
        alloc,
        &mut Requests::new(alloc),
        desk,
        false,
        reader,
        writer,
    )
}

/// The same, but once the desk has failed nothing more is read: the lines of the read in which a storeFault was
/// answered are the last. [`Desk::has_failed`] answers whether that ended them.
pub fn lines_until_failed<B: Book, R: Read, W: Write>(
    alloc: Global,
    desk: &mut Desk<B>,
    reader: &mut R,
    writer: &mut W,
) -> Result<(), LinesFault>
    ensures { DoneBy (by_requests B.Book true) (streamed R.Read W.Write reader writer) desk result }
{
    answer_lines(alloc, &mut Requests::new(alloc), desk, true, reader, writer)
}
