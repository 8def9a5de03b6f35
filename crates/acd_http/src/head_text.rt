//! A short text that takes no memory.

ghost use Rattle.std.specs.Prelude.{◌≡◌, ◌≤◌, ◌+◌, ◌++◌, [], length};

use std::marker::Model;

/// A text of at most 1024 bytes, in place.
#[derive(Drop)]
pub(crate) struct HeadText {
    bytes: [u8; 1024],
    len: usize,
}

impl Model for HeadText {
    ghost use Rattle.std.specs.Prelude.{ℕ, List, ◌≤◌, take};

    ghost Value = { List ℕ };

    ghost view = { λ h. take h.len h.bytes };

    ghost invariant = { λ h. h.len ≤ 1024 };
}

impl HeadText {
    pub(crate) fn new() -> HeadText
        ensures { result ≡ [] }
    {
        HeadText {
            bytes: [0; 1024],
            len: 0,
        }
    }

    /// Adds the bytes at the end.
    pub(crate) fn push(&mut self, text: &[u8])
        requires { length self.old + length text.now ≤ 1024 }
        ensures { self.new ≡ self.old ++ text.now }
    {
        for i in 0..text.len() {
            self.bytes[self.len + i] = text[i];
        }
        self.len += text.len();
    }

    /// How many bytes it can take yet.
    pub(crate) fn room(&self) -> usize
        ensures { length self.now + result ≡ 1024 }
    {
        1024 - self.len
    }

    pub(crate) fn as_slice(&self) -> &[u8]
        ensures { result.now ≡ self.now }
    {
        &self.bytes[..self.len]
    }
}
