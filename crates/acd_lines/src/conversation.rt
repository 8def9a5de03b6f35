//! A conversation in lines: they are cut out of what is read, and answered.

ghost use Rattle.std.specs.Prelude.{◌≡◌, ◌<◌, [], length, OnOk};
ghost use Rattle.std.specs.Io.BufRead.{strip_last};
ghost use Rattle.acd_desk.specs.Desks.DeskCalls.{state_of};
ghost use Rattle.acd_lines.specs.Answers.{answered_text};
ghost use Rattle.acd_lines.specs.Conversing.{over_replies, turn, KeepsEnds, IsBegun, heard};
ghost use Rattle.acd_lines.specs.WaitingBytes.{outgoing, Pushed, Flushed};
ghost use Rattle.acd_lines.specs.Questions.{LineAnswered, LineEnded, Fed, Finished, Conversed};

use crate::answering::{Answering, answer_line};
use crate::fault::LinesFault;
use crate::outbox::Outbox;
use crate::partial::Partial;
use crate::split::split_once;
use acd_book::Book;
use acd_desk::{AnswerText, Desk};
use acd_io::{Stopped, most_calls, retried};
use itoa::Buffer;
use std::alloc::Global;
use std::io::{Read, Write};

/// A desk that answers lines, and the writer of its answers.
#[derive(Drop)]
pub(crate) struct Replies<'a, B: Book, A, W> {
    alloc: Global,
    lines: &'a mut A,
    desk: &'a mut Desk<B>,
    outbox: &'a mut Outbox,
    writer: &'a mut W,
}

/// The same, and the beginning of a line that has not ended.
#[derive(Drop)]
pub(crate) struct Conversation<'a, 'b, B: Book, A, W> {
    pub(crate) replies: Replies<'a, B, A, W>,
    pub(crate) partial: &'b mut Partial,
}

// Puts the answer line after what waits.
pub(crate) fn push_answer<W: Write>(
    outbox: &mut Outbox,
    writer: &mut W,
    answered: &AnswerText,
) -> Result<(), Stopped>
    ensures { Pushed result (outgoing W.Write writer outbox) (answered_text answered.now) }
{
    let mut buffer = Buffer::new();
    outbox.push(writer, buffer.format(answered.status()).as_bytes())?;
    outbox.push(writer, b" ")?;
    outbox.push(writer, answered.body())?;
    outbox.push(writer, b"\n")
}

fn without_return(text: &[u8]) -> &[u8]
    ensures { result.now ≡ strip_last 13 text.now }
{
    match text {
        [front @ .., b'\r'] => front,
        _ => text,
    }
}

impl<'a, B: Book, A, W> Replies<'a, B, A, W> {
    pub(crate) fn new(
        alloc: Global,
        lines: &'a mut A,
        desk: &'a mut Desk<B>,
        outbox: &'a mut Outbox,
        writer: &'a mut W,
    ) -> Replies<'a, B, A, W>
        ensures same_desk { result.desk.ghost_name ≡ desk.entry.ghost_name }
        ensures desk { result.desk.now ≡ desk.old }
        ensures outbox { result.outbox.now ≡ outbox.old }
        ensures same_writer { result.writer.ghost_name ≡ writer.entry.ghost_name }
        ensures writer { result.writer.now ≡ writer.old }
    {
        Replies {
            alloc,
            lines,
            desk,
            outbox,
            writer,
        }
    }
}

impl<B: Book, A: Answering<B>, W: Write> Replies<'_, B, A, W> {
    // Answers a line.
    fn respond(&mut self, text: &[u8]) -> Result<(), Stopped>
        ensures same { KeepsEnds self.old self.new }
        ensures answered { LineAnswered A.Answering text.now
            (over_replies W.contents self.old self.new)
            result }
    {
        let answered = answer_line(self.lines, self.alloc, self.desk, text);
        push_answer(self.outbox, self.writer, &answered)
    }

    // Whether the desk has failed.
    fn has_failed(&self) -> bool
        ensures { result ≡ (state_of B.Book self.now.desk.now).failed }
    {
        self.desk.has_failed()
    }

    // All that waits is written.
    fn flush(&mut self) -> Result<(), Stopped>
        ensures same { KeepsEnds self.old self.new }
        ensures desk { self.new.desk.now ≡ self.old.desk.now }
        ensures flushed { Flushed result (over_replies W.contents self.old self.new).out }
    {
        self.outbox.flush(self.writer)
    }
}

impl<B: Book, A: Answering<B>, W: Write> Conversation<'_, '_, B, A, W> {
    // Answers the line that ends in these bytes. A line that is in them whole is not copied.
    fn end_line(&mut self, end: &[u8]) -> Result<(), Stopped>
        ensures same { KeepsEnds self.old.replies self.new.replies }
        ensures empty { OnOk result (self.new.partial.now ≡ []) }
        ensures answered { LineEnded A.Answering end.now (turn W.contents self.old self.new)
            result }
    {
        if self.partial.is_empty() {
            return self.replies.respond(without_return(end));
        }
        self.partial.extend(end);
        self.replies
            .respond(without_return(self.partial.as_slice()))?;
        self.partial.clear();
        Ok(())
    }

    // Takes what was read: the lines that end in it are answered, and their answers are written.
    fn feed(&mut self, chunk: &[u8]) -> Result<(), Stopped>
        ensures same { KeepsEnds self.old.replies self.new.replies }
        ensures fed { Fed A.Answering chunk.now (turn W.contents self.old self.new) result }
    {
        let mut rest = chunk;
        while let Some((end, new_rest)) = split_once(rest, b'\n') {
            self.end_line(end)?;
            rest = new_rest;
        }
        self.partial.extend(rest);
        self.replies.flush()
    }

    // Answers the last line, where the input does not end in a line feed.
    fn finish(&mut self) -> Result<(), Stopped>
        ensures same { KeepsEnds self.old.replies self.new.replies }
        ensures finished { Finished A.Answering (turn W.contents self.old self.new) result }
    {
        if self.partial.is_empty() {
            return self.replies.flush();
        }
        self.replies.respond(self.partial.as_slice())?;
        self.replies.flush()
    }

    /// Answers lines until the input is at its end or, where `ends` says so, the desk has failed.
    pub(crate) fn answer_all<R: Read>(
        &mut self,
        ends: bool,
        reader: &mut R,
        chunk: &mut [u8],
    ) -> Result<(), LinesFault>
        requires room { 0 < length chunk.old }
        requires begins { IsBegun self.old }
        ensures same { KeepsEnds self.old.replies self.new.replies }
        ensures done { Conversed A.Answering B.Book ends (heard R.Read W.Write reader self) result }
    {
        for _ in 0..most_calls() {
            if ends && self.replies.has_failed() {
                return Ok(());
            }
            match reader.read(chunk) {
                Ok(0) => {
                    self.finish()?;
                    return Ok(());
                }
                Ok(n) => self.feed(&chunk[..n])?,
                Err(e) => retried(e, LinesFault::Read)?,
            }
        }
        Err(LinesFault::Read)
    }
}
