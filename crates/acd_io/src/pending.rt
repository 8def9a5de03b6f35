//! Bytes that were read, and not given on.

ghost use Rattle.std.specs.Prelude.{◌≡◌, ◌+◌, ◌≤◌, ◌++◌, [], drop, length, IfOk};

use std::alloc::{AllocError, Global};
use std::marker::Model;

/// How many bytes it holds at most: a beginning of an order, and what one read brings.
const ROOM: usize = 8192;

/// Bytes that were read, and not given on. Their room never grows.
#[derive(Drop)]
pub struct Pending {
    bytes: Vec<u8>,
}

impl Model for Pending {
    ghost use Rattle.std.specs.Prelude.{ℕ, List, ◌≤◌, vec_len, vec_capacity};

    ghost Value = { List ℕ };

    ghost view = { λ p. p.bytes.items };

    ghost invariant = { λ p. (vec_len p.bytes ≤ 8192) × (8192 ≤ vec_capacity p.bytes) };
}

impl Pending {
    /// There are none yet.
    pub fn new(alloc: Global) -> Result<Pending, AllocError>
        ensures { IfOk result (λ p. p ≡ []) }
    {
        Ok(Pending {
            bytes: Vec::with_capacity(alloc, ROOM)?,
        })
    }

    pub(crate) fn as_slice(&self) -> &[u8]
        ensures { result.now ≡ self.now }
    {
        self.bytes.as_slice()
    }

    pub(crate) fn extend(&mut self, more: &[u8])
        requires { length self.old + length more.now ≤ 8192 }
        ensures { self.new ≡ self.old ++ more.now }
    {
        let Ok(()) = self.bytes.extend_from_slice(more) else {
            unreachable!()
        };
    }

    pub(crate) fn remove_front(&mut self, count: usize)
        requires { count ≤ length self.old }
        ensures { self.new ≡ drop count self.old }
    {
        let rest = self.bytes.len() - count;
        self.bytes.rotate_left(count);
        self.bytes.truncate(rest);
    }
}
