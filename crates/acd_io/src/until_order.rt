//! A reader that stops at the order to serve.

use crate::order::{begins_order, is_beginning};
use crate::passing::passed;
use crate::pending::Pending;
use std::io::{self, ErrorKind, Read};

/// How many bytes are read at once.
const CHUNK: usize = 4096;

/// It gives on the bytes of a reader that come before the first line that is exactly `serve`. There it stops with an
/// error, and reads no more ([`UntilOrder::is_told`]); where no such line comes it ends as the reader does. A line ends
/// with a line feed, or a carriage return and a line feed: without them `serve` is no order.
#[derive(Drop)]
pub struct UntilOrder<R: Read> {
    inner: R,
    pending: Pending,
    starts: bool,
    ended: bool,
}

impl<R: Read> UntilOrder<R> {
    ghost use Rattle.std.specs.Prelude.{◌≡◌, ◌<◌, ◌≤◌, false, [], length, option_map, IfSome, IsTrue, OnOk};
    ghost use Rattle.std.specs.Io.KnownBytes.{Keeps};
    ghost use Rattle.acd_io.specs.Order.{marked, mark};
    ghost use Rattle.acd_io.specs.RestOfInput.{is_told, input_left, reads_left};

    /// It begins with the next byte of the reader, as a line does. It takes no memory but that of `pending`.
    pub fn new(pending: Pending, inner: R) -> UntilOrder<R>
        requires { pending ≡ [] }
        ensures { input_left R.remaining result ≡ option_map marked (R.remaining inner) }
    {
        UntilOrder {
            inner,
            pending,
            starts: true,
            ended: false,
        }
    }

    /// Whether it has stopped at the order.
    pub fn is_told(&self) -> bool
        ensures value { result ≡ is_told self.now }
        ensures order { IsTrue result → IfSome (input_left R.remaining self.now) (λ xs. xs ≡ mark) }
    {
        self.starts && begins_order(self.pending.as_slice())
    }

    // Whether it isn't known yet what the next byte is, or whether it is that of an order.
    fn is_open(&self) -> bool
        ensures some { result ≡ false → 0 < length self.now.pending }
        ensures short { IsTrue result → length self.now.pending ≤ 7 }
    {
        let bytes = self.pending.as_slice();
        if bytes.is_empty() {
            return true;
        }
        self.starts && is_beginning(bytes) && !begins_order(bytes)
    }

    // Reads once.
    fn fill(&mut self) -> io::Result<()>
        requires room { length self.old.pending ≤ 4096 }
        requires goes_on { self.old.ended ≡ false }
        ensures kept { Keeps (input_left R.remaining self.old) (input_left R.remaining self.new) }
        ensures fewer { OnOk result (reads_left self.new < reads_left self.old) }
    {
        let mut chunk = [0u8; CHUNK];
        let count = self.inner.read(&mut chunk)?;
        if count == 0 {
            self.ended = true;
        } else {
            self.pending.extend(&chunk[..count]);
        }
        Ok(())
    }

    // Reads until it is known, or the reader has ended.
    fn decide(&mut self) -> io::Result<()>
        ensures kept { Keeps (input_left R.remaining self.old) (input_left R.remaining self.new) }
        ensures some { OnOk result (self.new.ended ≡ false → 0 < length self.new.pending) }
    {
        while !self.ended && self.is_open() {
            self.fill()?;
        }
        Ok(())
    }
}

impl<R: Read> Read for UntilOrder<R> {
    ghost use Rattle.acd_io.specs.RestOfInput.{input_left};

    ghost remaining = { input_left R.remaining };

    fn read(&mut self, buf: &mut [u8]) -> io::Result<usize> {
        self.decide()?;
        let bytes = self.pending.as_slice();
        let most = bytes.len().min(buf.len());
        let (count, starts) = passed(bytes, self.starts, most, self.ended);
        if most > 0 && count == 0 {
            return Err(io::Error::from(ErrorKind::Other));
        }
        buf[..count].copy_from_slice(&bytes[..count]);
        self.pending.remove_front(count);
        self.starts = starts;
        Ok(count)
    }
}
