//! The sending of lines that end in a number or a text.

ghost use Rattle.acd_io.specs.SentBytes.{Sends};
ghost use Rattle.acd_sessions.specs.Output.{number_text, number_line, text_line};

use acd_io::{Stopped, send};
use itoa::Buffer;
use std::io::Write;

// How often the writer is called at most.
const CALLS: u64 = u64::MAX;

/// Writes a number between two texts.
pub fn send_between<W: Write>(
    writer: &mut W,
    front: &[u8],
    number: u64,
    back: &[u8],
) -> Result<(), Stopped>
    ensures { Sends W.contents writer.old writer.new result
        (number_text front.now number back.now) }
{
    let mut calls = CALLS;
    let mut digits = Buffer::new();
    send(writer, &mut calls, front)?;
    send(writer, &mut calls, digits.format(number).as_bytes())?;
    send(writer, &mut calls, back)
}

/// Writes a line that ends in a number.
pub fn send_number<W: Write>(writer: &mut W, front: &[u8], number: u64) -> Result<(), Stopped>
    ensures { Sends W.contents writer.old writer.new result (number_line front.now number) }
{
    send_between(writer, front, number, b"\n")
}

/// Writes a line that ends in a text.
pub(crate) fn send_text<W: Write>(writer: &mut W, front: &[u8], text: &str) -> Result<(), Stopped>
    ensures { Sends W.contents writer.old writer.new result (text_line front.now text.now) }
{
    let mut calls = CALLS;
    send(writer, &mut calls, front)?;
    send(writer, &mut calls, text.as_bytes())?;
    send(writer, &mut calls, b"\n")
}
