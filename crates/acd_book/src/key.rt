//! The key under which a request is kept.

use acd_terms::{Invoke, Requester};

/// The key under which a request is kept: who sent it, and its invoke number.
#[derive(Clone, Copy, Debug, PartialEq, Eq, Hash)]
pub(crate) struct Key {
    pub(crate) requester: Requester,
    pub(crate) invoke: Invoke,
}
