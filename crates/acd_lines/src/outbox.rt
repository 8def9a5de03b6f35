//! Answers that wait to be written together.

ghost use Rattle.std.specs.Prelude.{◌≡◌, [], IfOk};
ghost use Rattle.acd_lines.specs.WaitingBytes.{outgoing, Pushed, Flushed};

use acd_io::{Stopped, most_calls, send};
use std::alloc::{AllocError, Global};
use std::io::Write;

/// How many bytes wait at most.
const ROOM: usize = 65_536;

/// Bytes that wait to be written. Its room never grows: where a text doesn't fit, the waiting bytes are written first.
#[derive(Drop)]
pub(crate) struct Outbox {
    waiting: Vec<u8>,
    calls: u64,
}

impl Outbox {
    pub(crate) fn new(alloc: Global) -> Result<Outbox, AllocError>
        ensures { IfOk result (λ o. o.waiting.items ≡ []) }
    {
        Ok(Outbox {
            waiting: Vec::with_capacity(alloc, ROOM)?,
            calls: most_calls(),
        })
    }

    /// One in which nothing waits: each text is written at once. It takes no memory.
    pub(crate) fn unbuffered(alloc: Global) -> Outbox
        ensures { result.waiting.items ≡ [] }
    {
        Outbox {
            waiting: Vec::new(alloc),
            calls: most_calls(),
        }
    }

    /// Adds the text after what waits. A text that is longer than the room is written at once.
    pub(crate) fn push<W: Write>(&mut self, writer: &mut W, text: &[u8]) -> Result<(), Stopped>
        ensures { Pushed result (outgoing W.Write writer self) text.now }
    {
        if text.len() > self.waiting.capacity() - self.waiting.len() {
            self.flush(writer)?;
            if text.len() > self.waiting.capacity() {
                return send(writer, &mut self.calls, text);
            }
        }
        let Ok(()) = self.waiting.extend_from_slice(text) else {
            unreachable!()
        };
        Ok(())
    }

    /// All that waits is written.
    pub(crate) fn flush<W: Write>(&mut self, writer: &mut W) -> Result<(), Stopped>
        ensures { Flushed result (outgoing W.Write writer self) }
    {
        send(writer, &mut self.calls, self.waiting.as_slice())?;
        self.waiting.clear();
        Ok(())
    }
}
