//! The request of a head.

ghost use Rattle.std.specs.Prelude.{◌≡◌, ℕ, ◌≤◌, length, All};
ghost use Rattle.httparse.specs.Grammar.{RequestHead};
ghost use Rattle.httparse.specs.Spans.{IsHeaderWithin};
ghost use Rattle.acd_http.specs.Fields.{fields_in, fields_refused, length_in};
ghost use Rattle.acd_http.specs.HeadRequests.{is_head, looked, by_length, posted, by_method, from_head, IsReadAs, IsHeadRead};
ghost use Rattle.acd_http.specs.WebRequests.{IsHeadAsked};

use crate::fields::{Length, fields_refused, length_in};
use crate::head::lines_in;
use crate::method::Method;
use crate::refused::{Allow, Part, Refused};
use crate::routes::{Route, Routes};
use crate::target::path_and_query;
use acd_desk::Question;
use httparse::Status;
use httparse::spans::{EMPTY_HEADER_SPAN, HeaderSpan, parse_request};
use std::alloc::{AllocError, Global};

/// The request of a head.
#[derive(Clone, Copy, Debug, PartialEq, Eq)]
pub(crate) enum HeadRequest {
    Refused(Refused),
    Look(Question),
    /// The service that a body of this length asks for.
    Body(usize),
}

fn looked(found: Result<Question, Refused>) -> HeadRequest
    ensures { result ≡ looked found }
{
    match found {
        Ok(question) => HeadRequest::Look(question),
        Err(refused) => HeadRequest::Refused(refused),
    }
}

fn by_length(length: Length) -> HeadRequest
    ensures { result ≡ by_length length }
{
    match length {
        Length::Given(n) => HeadRequest::Body(n),
        Length::TooLarge => HeadRequest::Refused(Refused::BodyTooLarge),
        Length::Absent | Length::Faulty => HeadRequest::Refused(Refused::LengthRequired),
    }
}

// The request of a POST.
fn posted(route: Option<Route>, length: Length) -> HeadRequest
    ensures { result ≡ posted route length }
{
    match route {
        None => HeadRequest::Refused(Refused::NotFound),
        Some(route) => {
            if route.is_services() {
                by_length(length)
            } else {
                HeadRequest::Refused(Refused::MethodNotAllowed(Allow::Reads))
            }
        }
    }
}

// The request of a method for a target.
fn by_method(
    alloc: Global,
    routes: &Routes,
    method: Option<Method>,
    target: &[u8],
    length: Length,
) -> Result<HeadRequest, AllocError>
    ensures { IsReadAs result (by_method method target.now length) }
{
    match method {
        None => Ok(HeadRequest::Refused(Refused::NotImplemented)),
        Some(Method::Post) => {
            let (path, _) = path_and_query(target);
            Ok(posted(routes.route_of(path), length))
        }
        Some(Method::Get | Method::Head) => {
            let found = routes.look_up(alloc, target)?;
            Ok(looked(found))
        }
    }
}

// The request of a head, by its method, its target and its fields.
#[tactic(auto, unfolding(crate::specs::HeadRequests::from_head))]
fn from_head(
    alloc: Global,
    routes: &Routes,
    minor: u8,
    method: Option<Method>,
    target: &[u8],
    buf: &[u8],
    headers: &[HeaderSpan],
) -> Result<HeadRequest, AllocError>
    requires { All (IsHeaderWithin (length buf.now)) headers.now }
    ensures { IsReadAs result
        (from_head minor method target.now (fields_in buf.now headers.now)) }
{
    match fields_refused(minor, buf, headers) {
        Some(refused) => Ok(HeadRequest::Refused(refused)),
        None => by_method(alloc, routes, method, target, length_in(buf, headers)),
    }
}

// The request of a head that has come whole, and whether its method is HEAD; there may be no memory to read it. None
// where the bytes aren't a head.
fn read_request_head(
    alloc: Global,
    routes: &Routes,
    head: &[u8],
) -> Option<(bool, Result<HeadRequest, AllocError>)>
    ensures { IsHeadRead head.now result }
{
    let mut headers = [EMPTY_HEADER_SPAN; 32];
    match parse_request(head, &mut headers) {
        Ok(Status::Complete(spans)) => {
            if spans.len != head.len() {
                return None;
            }
            let method = Method::read(spans.method.of(head));
            let target = spans.path.of(head);
            let fields = &headers[..spans.headers];
            let wanted = from_head(alloc, routes, spans.version, method, target, head, fields);
            Some((Method::is_head(method), wanted))
        }
        _ => None,
    }
}

/// How many lines of a head aren't empty, at most: the request line and the fields.
const LINES: usize = 33;

/// Whether the reply to a head that has come whole is sent without its body, and the request of the head; there may be
/// no memory to read it.
pub(crate) fn head_asked(
    alloc: Global,
    routes: &Routes,
    head: &[u8],
) -> (bool, Result<HeadRequest, AllocError>)
    ensures { IsHeadAsked head.now result.0 result.1 }
{
    if lines_in(head) > LINES {
        return (false, Ok(HeadRequest::Refused(Refused::HeadTooLarge)));
    }
    match read_request_head(alloc, routes, head) {
        None => (
            false,
            Ok(HeadRequest::Refused(Refused::Malformed(Part::Head))),
        ),
        Some(read) => read,
    }
}
