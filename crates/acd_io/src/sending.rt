//! Bytes that are written whole.

ghost use Rattle.acd_io.specs.SentBytes.{Sends};

use crate::retry::retried;
use std::io::Write;
use thiserror::Error;

/// A reader or a writer failed, or was called as often as it may be.
#[derive(Clone, Copy, Debug, PartialEq, Eq, Error)]
#[error("the stream has stopped")]
pub struct Stopped;

/// Writes all of the bytes. Each call of the writer takes one off `calls`; a call that is interrupted is made
/// again.
pub fn send<W: Write>(writer: &mut W, calls: &mut u64, bytes: &[u8]) -> Result<(), Stopped>
    ensures { Sends W.contents writer.old writer.new result bytes.now }
{
    let mut done = 0;
    while done < bytes.len() {
        if *calls == 0 {
            return Err(Stopped);
        }
        *calls -= 1;
        match writer.write(&bytes[done..]) {
            Ok(0) => return Err(Stopped),
            Ok(n) => done += n,
            Err(e) => retried(e, Stopped)?,
        }
    }
    Ok(())
}
