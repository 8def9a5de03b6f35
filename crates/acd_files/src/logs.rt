//! What the bytes of a log say, before anything is opened.

ghost use Rattle.std.specs.Prelude.{◌↔◌, IsTrue, IfOk};
ghost use Rattle.acd_io.specs.Streams.{IsInput};
ghost use Rattle.acd_files.specs.Logs.{IsEndingFrom, IsSpoiled, IsUnfinished};

use crate::lone_log::hold_commit;
use acd_log::{Ending, ending_of};
use sqlite_wal::Error;
use std::alloc::Global;
use std::io::{self, Read};

// So many bytes, and no more, a stop leaves of a file that is being made: those of its first page.
const FIRST_PAGE: u64 = 1024;

/// All bytes of a reader.
pub(crate) fn all_bytes<R: Read + Drop>(alloc: Global, mut reader: R) -> io::Result<Vec<u8>>
    ensures { IfOk result (λ bytes. IsInput (R.remaining reader) bytes.items) }
{
    let mut bytes = Vec::new(alloc);
    reader.read_to_end(&mut bytes)?;
    Ok(bytes)
}

/// How the log ends that a reader gives.
pub(crate) fn ending_from<R: Read + Drop>(alloc: Global, reader: R) -> io::Result<Ending>
    ensures { IfOk result (IsEndingFrom (R.remaining reader)) }
{
    let bytes = all_bytes(alloc, reader)?;
    Ok(ending_of(&bytes))
}

// Whether a log ends in another way than one that is whole, or that a power cut leaves.
fn is_damaged(log: &[u8]) -> bool
    ensures { IsTrue result ↔ IsSpoiled log.now }
{
    match ending_of(log) {
        Ending::Plain => false,
        Ending::Early => true,
        Ending::Headless => true,
    }
}

/// Whether an opening would change a byte of a file of so many, with a log of these bytes beside it: it would end what a stop
/// left of a first page, lay in what the log holds, or empty a damaged one.
pub(crate) fn would_change(alloc: Global, len: u64, log: &[u8]) -> Result<bool, Error>
    ensures { IfOk result (λ changes. IsTrue changes ↔ IsUnfinished len log.now) }
{
    if len <= FIRST_PAGE {
        return Ok(true);
    }
    if hold_commit(alloc, log)? {
        return Ok(true);
    }
    Ok(is_damaged(log))
}
