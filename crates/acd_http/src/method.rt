//! The methods that the desk knows.

/// A method. Methods are compared as they are, in their case.
#[derive(Clone, Copy, Debug, PartialEq, Eq)]
pub(crate) enum Method {
    Get,
    Head,
    Post,
}

impl Method {
    ghost use Rattle.std.specs.Prelude.{◌≡◌};
    ghost use Rattle.acd_http.specs.HeadRequests.{method_of, is_head};

    pub(crate) fn read(bytes: &[u8]) -> Option<Method>
        ensures { result ≡ method_of bytes.now }
    {
        if bytes == b"GET".as_slice() {
            Some(Method::Get)
        } else if bytes == b"HEAD".as_slice() {
            Some(Method::Head)
        } else if bytes == b"POST".as_slice() {
            Some(Method::Post)
        } else {
            None
        }
    }

    /// Whether the reply has no body.
    pub(crate) fn is_head(method: Option<Method>) -> bool
        ensures { result ≡ is_head method }
    {
        match method {
            Some(Method::Head) => true,
            Some(Method::Get | Method::Post) | None => false,
        }
    }
}
