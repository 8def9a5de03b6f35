//! The bytes read of a connection.

ghost use Rattle.std.specs.Prelude.{◌≡◌, ◌<◌, ◌≤◌, ◌+◌, ◌++◌, [], length, IfOk, OnOk};
ghost use Rattle.acd_io.specs.Streams.{across};
ghost use Rattle.acd_http.specs.ReceivedBytes.{Filled};

use acd_io::{Stopped, retried};
use std::alloc::{AllocError, Global};
use std::io::Read;
use std::marker::Model;

/// A head of at most 8192 bytes, a body of at most 4096, and what came with them in the last read.
const ROOM: usize = 16_384;

/// How many bytes are read at once.
const CHUNK: usize = 4096;

/// The bytes read so far. Their room never grows.
#[derive(Drop)]
pub(crate) struct Input {
    bytes: Vec<u8>,
}

impl Model for Input {
    ghost use Rattle.std.specs.Prelude.{ℕ, List, ◌≤◌, vec_len, vec_capacity};

    ghost Value = { List ℕ };

    ghost view = { λ i. i.bytes.items };

    ghost invariant = { λ i. (vec_len i.bytes ≤ 16384) × (16384 ≤ vec_capacity i.bytes) };
}

impl Input {
    pub(crate) fn new(alloc: Global) -> Result<Input, AllocError>
        ensures { IfOk result (λ i. i ≡ []) }
    {
        Ok(Input {
            bytes: Vec::with_capacity(alloc, ROOM)?,
        })
    }

    pub(crate) fn as_slice(&self) -> &[u8]
        ensures { result.now ≡ self.now }
    {
        self.bytes.as_slice()
    }

    fn extend(&mut self, more: &[u8])
        requires { length self.old + length more.now ≤ 16384 }
        ensures { self.new ≡ self.old ++ more.now }
    {
        let Ok(()) = self.bytes.extend_from_slice(more) else {
            unreachable!()
        };
    }
}

/// Reads once more, and answers whether more may come. A call that is interrupted is made again.
pub(crate) fn fill<R: Read>(
    reader: &mut R,
    calls: &mut u64,
    input: &mut Input,
) -> Result<bool, Stopped>
    requires { length input.old ≤ 12288 }
    ensures read { Filled (input.old, input.new) (across R.remaining reader.old reader.new)
        result }
    ensures called { OnOk result (calls.new < calls.old) }
{
    let mut chunk = [0u8; CHUNK];
    while *calls > 0 {
        *calls -= 1;
        match reader.read(&mut chunk) {
            Ok(0) => return Ok(false),
            Ok(n) => {
                input.extend(&chunk[..n]);
                return Ok(true);
            }
            Err(e) => retried(e, Stopped)?,
        }
    }
    Err(Stopped)
}
