//! The lines of a plan as whoever wrote it sees them.

ghost use Rattle.std.specs.Prelude.{◌≡◌, ◌<◌, ◌++◌, length, string_bytes, IfOk, OnOk};
ghost use Rattle.acd_files.specs.PlanLines.{place_after, begun_at, is_printable, hex_digit, shown_byte, is_shown_to, form_text, line_number, first_line, ShowsLine};

use acd_reports::PlanMember;
use std::alloc::{AllocError, Global};

// How many characters of a line are shown.
const SHOWN: usize = 60;

// A place in a plan's text.
#[derive(Clone, Copy)]
struct Place {
    line: u64,
    records: u64,
    is_begun: bool,
    is_quoted: bool,
    last: u8,
}

// The place after this byte. A record begins with its first byte, and ends where its line does, outside of quotes; an
// empty line is none. CR and LF together end one line.
fn after(place: Place, byte: u8) -> Place
    ensures { result ≡ place_after place byte }
{
    let last = place.last;
    let place = Place {
        last: byte,
        ..place
    };
    match byte {
        b'\n' if last == b'\r' => place,
        b'\n' | b'\r' => Place {
            line: place.line.saturating_add(1),
            is_begun: place.is_begun && place.is_quoted,
            ..place
        },
        b'"' => Place {
            is_quoted: !place.is_quoted,
            ..begun(place)
        },
        _ => begun(place),
    }
}

fn begun(place: Place) -> Place
    ensures { result ≡ begun_at place }
{
    if place.is_begun {
        return place;
    }
    Place {
        records: place.records.saturating_add(1),
        is_begun: true,
        ..place
    }
}

/// The line in which this record begins, both counted from 1. The header is the first record.
#[tactic(auto, using(crate::proofs::LineOf::line_none))]
pub fn line_of(plan: &[u8], wanted: u64) -> Option<u64>
    ensures { result ≡ line_number plan.now wanted }
{
    let mut place = Place {
        line: 1,
        records: 0,
        is_begun: false,
        is_quoted: false,
        last: 0,
    };
    for byte in plan {
        let line = place.line;
        place = after(place, *byte);
        if place.records == wanted {
            return Some(line);
        }
    }
    None
}

fn is_plain(byte: u8) -> bool
    ensures { result ≡ is_printable byte }
{
    byte.is_ascii_graphic() || byte == b' '
}

// How many characters show a byte.
fn width(byte: u8) -> usize
    ensures { result ≡ length (shown_byte byte) }
{
    if is_plain(byte) { 1 } else { 4 }
}

// A digit of a number to the base of 16.
fn digit(value: u8) -> char
    requires { value < 16 }
    ensures { result ≡ hex_digit value }
{
    if value < 10 {
        char::from(b'0' + value)
    } else {
        char::from(b'A' + (value - 10))
    }
}

// The text with one byte more: as it is where that can be printed, and else as its number.
fn push_shown(text: &mut String, byte: u8) -> Result<(), AllocError>
    ensures { OnOk result (string_bytes text.new ≡ string_bytes text.old ++ shown_byte byte) }
{
    if is_plain(byte) {
        return text.push(char::from(byte));
    }
    text.push_str("\\x")?;
    text.push(digit(byte / 16))?;
    text.push(digit(byte % 16))
}

// Whether what is shown ends before this byte: its line does, or there is no room for it.
fn ends_before(text: &String, byte: u8) -> bool
    ensures { result ≡ is_shown_to (string_bytes text.now) byte }
{
    byte == b'\n' || byte == b'\r' || text.len().saturating_add(width(byte)) > SHOWN
}

/// The first line of a plan in ASCII, as far as 60 characters can show it.
pub fn first_line(alloc: Global, plan: &[u8]) -> Result<String, AllocError>
    ensures { IfOk result (λ text. ShowsLine (first_line plan.now) (string_bytes text)) }
{
    let mut text = String::new(alloc);
    for byte in plan {
        if ends_before(&text, *byte) {
            return Ok(text);
        }
        push_shown(&mut text, *byte)?;
    }
    Ok(text)
}

/// The required form of this member of a row.
pub fn form_of(member: PlanMember) -> &'static str
    ensures { result.now ≡ form_text member }
{
    match member {
        PlanMember::Fields => "a row has five fields, parted by commas, in UTF-8",
        PlanMember::Kind => "a kind is group, station or agent",
        PlanMember::Number => "a number is 1 to 15 digits, an agent's 1 to 9",
        PlanMember::Name => "a name is 1 to 40 characters from space to ~; a station has none",
        PlanMember::Ring => "a group's ring is 0 to 3600; others have none",
        PlanMember::Wrap => "a group's wrap is 0 to 3600; others have none",
    }
}
