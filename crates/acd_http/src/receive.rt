//! A head and a body that are read as they come.

ghost use Rattle.std.specs.Prelude.{◌≡◌, ◌≤◌, [], take};
ghost use Rattle.acd_io.specs.Streams.{across};
ghost use Rattle.acd_http.specs.Head.{head_len};
ghost use Rattle.acd_http.specs.ReceivedBytes.{BodyRead, HeadRead};

use crate::head::head_len;
use crate::input::{Input, fill};
use acd_io::Stopped;
use std::io::Read;

/// How many bytes a head has at most.
pub(crate) const LONGEST_HEAD: usize = 8192;

// The length of the head in the first bytes.
fn front_len(bytes: &[u8]) -> Option<usize>
    ensures { result ≡ head_len (take 8192 bytes.now) }
{
    if bytes.len() > LONGEST_HEAD {
        return head_len(&bytes[..LONGEST_HEAD]);
    }
    head_len(bytes)
}

/// Reads until the head has come whole, and answers its length. None where it hasn't ended within the greatest length, or
/// the input has before it.
pub(crate) fn read_head<R: Read>(
    reader: &mut R,
    calls: &mut u64,
    input: &mut Input,
) -> Result<Option<usize>, Stopped>
    requires { input.old ≡ [] }
    ensures { HeadRead input.new (across R.remaining reader.old reader.new) result }
{
    while input.as_slice().len() < LONGEST_HEAD {
        match front_len(input.as_slice()) {
            Some(n) => return Ok(Some(n)),
            None => {}
        }
        if !fill(reader, calls, input)? {
            return Ok(None);
        }
    }
    Ok(front_len(input.as_slice()))
}

/// Reads until so many bytes have come, and answers whether they have.
pub(crate) fn read_up_to<R: Read>(
    reader: &mut R,
    calls: &mut u64,
    input: &mut Input,
    len: usize,
) -> Result<bool, Stopped>
    requires { len ≤ 12288 }
    ensures { BodyRead len (input.old, input.new) (across R.remaining reader.old reader.new)
        result }
{
    while input.as_slice().len() < len {
        if !fill(reader, calls, input)? {
            return Ok(false);
        }
    }
    Ok(true)
}
