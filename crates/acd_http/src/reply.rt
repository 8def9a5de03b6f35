//! The bytes of a reply.

ghost use Rattle.std.specs.Prelude.{◌≡◌, ◌≤◌, ◌+◌, ◌++◌, length};
ghost use Rattle.acd_http.specs.ReplyBytes.{phrase_of, kind_text, allow_text, status_line, kind_field, size_field, head_text};

use crate::head_text::HeadText;
use crate::refused::Allow;
use acd_desk::Question;
use itoa::Buffer;

/// The kind of a body.
#[derive(Clone, Copy, Debug, PartialEq, Eq)]
pub(crate) enum Kind {
    Json,
    Plain,
}

impl Kind {
    ghost use Rattle.std.specs.Prelude.{◌≡◌};
    ghost use Rattle.acd_http.specs.Exchange.{reply_kind};

    /// Of the answer to a question.
    pub(crate) fn of(question: &Question) -> Kind
        ensures { result ≡ reply_kind question.now }
    {
        if question.is_plain() {
            Kind::Plain
        } else {
            Kind::Json
        }
    }
}

// The canonical phrase of a status that the desk answers.
#[tactic(auto, unfolding(crate::specs::ReplyBytes::phrase_of))]
fn phrase_of(status: u16) -> &'static str
    ensures value { result.now ≡ phrase_of status }
    ensures short { length result.now ≤ 31 }
{
    match status {
        200 => "OK",
        400 => "Bad Request",
        404 => "Not Found",
        405 => "Method Not Allowed",
        409 => "Conflict",
        411 => "Length Required",
        413 => "Payload Too Large",
        422 => "Unprocessable Entity",
        431 => "Request Header Fields Too Large",
        501 => "Not Implemented",
        503 => "Service Unavailable",
        507 => "Insufficient Storage",
        _ => "",
    }
}

fn kind_text(kind: Kind) -> &'static [u8]
    ensures value { result.now ≡ kind_text kind }
    ensures short { length result.now ≤ 16 }
{
    match kind {
        Kind::Json => b"application/json",
        Kind::Plain => b"text/plain",
    }
}

fn allow_text(allow: Option<Allow>) -> &'static [u8]
    ensures value { result.now ≡ allow_text allow }
    ensures short { length result.now ≤ 18 }
{
    match allow {
        None => b"",
        Some(Allow::Reads) => b"Allow: GET, HEAD\r\n",
        Some(Allow::Posts) => b"Allow: POST\r\n",
    }
}

fn push_status(head: &mut HeadText, status: u16)
    requires { length head.old ≤ 100 }
    ensures value { head.new ≡ head.old ++ status_line status }
    ensures short { length head.new ≤ length head.old + 83 }
{
    let mut digits = Buffer::new();
    head.push(b"HTTP/1.1 ");
    head.push(digits.format(status).as_bytes());
    head.push(b" ");
    head.push(phrase_of(status).as_bytes());
    head.push(b"\r\n");
}

fn push_kind(head: &mut HeadText, kind: Kind)
    requires { length head.old ≤ 100 }
    ensures value { head.new ≡ head.old ++ kind_field kind }
    ensures short { length head.new ≤ length head.old + 32 }
{
    head.push(b"Content-Type: ");
    head.push(kind_text(kind));
    head.push(b"\r\n");
}

fn push_size(head: &mut HeadText, size: usize)
    requires { length head.old ≤ 150 }
    ensures value { head.new ≡ head.old ++ size_field size }
    ensures short { length head.new ≤ length head.old + 58 }
{
    let mut digits = Buffer::new();
    head.push(b"Content-Length: ");
    head.push(digits.format(size).as_bytes());
    head.push(b"\r\n");
}

/// Makes the head of a reply. It takes no memory.
#[tactic(auto, unfolding(crate::specs::ReplyBytes::head_text))]
pub(crate) fn reply_head(status: u16, kind: Kind, size: usize, allow: Option<Allow>) -> HeadText
    ensures { result ≡ head_text status kind size allow }
{
    let mut head = HeadText::new();
    push_status(&mut head, status);
    push_kind(&mut head, kind);
    push_size(&mut head, size);
    head.push(allow_text(allow));
    head.push(b"Connection: close\r\n\r\n");
    head
}
