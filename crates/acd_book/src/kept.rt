//! The replies that are kept.

ghost use Rattle.std.specs.Prelude.{◌≡◌};

use crate::key::Key;
use crate::text::Text;
use acd_terms::Request;
use std::alloc::AllocError;

/// The record that is kept of an executed request.
#[derive(Debug, Drop, PartialEq, Eq)]
pub struct Kept {
    /// Its number among the executed requests, from 1.
    pub stamp: u64,
    /// The moment at which it was executed, in seconds.
    pub moment: u32,
    pub request: Request,
    /// The status of the reply, as of HTTP.
    pub status: u16,
    /// The reply's JSON.
    pub body: Text,
}

impl Kept {
    ghost use Rattle.acd_book.specs.Memory.{key_of};

    /// The key under which it is kept.
    pub(crate) fn key(&self) -> Key
        ensures { result ≡ key_of self.now }
    {
        Key {
            requester: self.request.requester,
            invoke: self.request.invoke,
        }
    }
}

impl Clone for Kept {
    ghost is_clone = { λ kept clone. clone ≡ kept };

    fn clone(&self) -> Result<Kept, AllocError> {
        Ok(Kept {
            body: self.body.clone()?,
            ..*self
        })
    }
}
