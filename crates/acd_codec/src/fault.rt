//! Why bytes are not read as a request, and the answers that name no request.

ghost use Rattle.std.specs.Prelude.{◌≡◌};
ghost use Rattle.acd_codec.specs.ReplyTexts.{fixed_status, fixed_text};
ghost use Rattle.acd_codec.specs.declared.fault.ReadFault.TheVariants.{Malformed, NoMemory};

use crate::member::Member;
use std::alloc::AllocError;
use thiserror::Error;

/// Why bytes are not read as a request.
#[derive(Clone, Copy, Debug, PartialEq, Eq, Error)]
pub enum ReadFault {
    /// The first faulty member.
    #[error("malformed: {}", .0.name())]
    Malformed(Member),
    #[error("out of memory")]
    NoMemory,
}

impl From<AllocError> for ReadFault {
    ghost from_gives = { λ _ fault. fault ≡ NoMemory };

    fn from(_error: AllocError) -> ReadFault {
        ReadFault::NoMemory
    }
}

impl From<Member> for ReadFault {
    ghost from_gives = { λ member fault. fault ≡ Malformed member };

    fn from(member: Member) -> ReadFault {
        ReadFault::Malformed(member)
    }
}

/// An answer that names no request. Its text is fixed, and takes no memory.
#[derive(Clone, Copy, Debug, PartialEq, Eq)]
pub enum FixedAnswer {
    NoMemory,
    StoreFault,
    NotFound,
    MethodNotAllowed,
    LengthRequired,
    BodyTooLarge,
    HeadTooLarge,
    NotImplemented,
}

impl FixedAnswer {
    /// The status, as of HTTP.
    pub fn status(self) -> u16
        ensures { result ≡ fixed_status self }
    {
        match self {
            FixedAnswer::NoMemory => 503,
            FixedAnswer::StoreFault => 503,
            FixedAnswer::NotFound => 404,
            FixedAnswer::MethodNotAllowed => 405,
            FixedAnswer::LengthRequired => 411,
            FixedAnswer::BodyTooLarge => 413,
            FixedAnswer::HeadTooLarge => 431,
            FixedAnswer::NotImplemented => 501,
        }
    }

    /// The body.
    pub fn text(self) -> &'static str
        ensures { result.now ≡ fixed_text self }
    {
        match self {
            FixedAnswer::NoMemory => "{\"error\":{\"code\":33,\"name\":\"noMemory\"}}",
            FixedAnswer::StoreFault => "{\"error\":{\"code\":34,\"name\":\"storeFault\"}}",
            FixedAnswer::NotFound => "{\"error\":{\"code\":35,\"name\":\"notFound\"}}",
            FixedAnswer::MethodNotAllowed =>
                "{\"error\":{\"code\":36,\"name\":\"methodNotAllowed\"}}",
            FixedAnswer::LengthRequired => "{\"error\":{\"code\":37,\"name\":\"lengthRequired\"}}",
            FixedAnswer::BodyTooLarge => "{\"error\":{\"code\":38,\"name\":\"bodyTooLarge\"}}",
            FixedAnswer::HeadTooLarge => "{\"error\":{\"code\":39,\"name\":\"headTooLarge\"}}",
            FixedAnswer::NotImplemented => "{\"error\":{\"code\":40,\"name\":\"notImplemented\"}}",
        }
    }
}
