//! The fields of a head that every request is tested by.

ghost use Rattle.std.specs.Prelude.{◌≡◌, length, map, All, option_map};
ghost use Rattle.std.specs.Char.{to_ascii_lowercase};
ghost use Rattle.std.specs.Str.{bytes_eq};
ghost use Rattle.httparse.specs.Spans.{IsHeaderWithin};
ghost use Rattle.acd_http.specs.Fields.{fields_in, count_named, first_named, is_host_fine, length_by, length_in, fields_refused};

use crate::refused::{Part, Refused};
use acd_io::number_up_to;
use httparse::spans::HeaderSpan;

/// The length that the Content-Length fields of a head give.
#[derive(Clone, Copy, Debug, PartialEq, Eq)]
pub(crate) enum Length {
    /// There is none.
    Absent,
    /// There are more than one, or its value isn't one or more digits.
    Faulty,
    /// The body has so many bytes.
    Given(usize),
    /// The body has more bytes than are read.
    TooLarge,
}

impl Length {
    ghost use Rattle.std.specs.Prelude.{◌≡◌};
    ghost use Rattle.acd_http.specs.Fields.{is_faulty};

    fn is_faulty(self) -> bool
        ensures { result ≡ is_faulty self }
    {
        match self {
            Length::Faulty => true,
            Length::Absent | Length::Given(_) | Length::TooLarge => false,
        }
    }
}

/// How many bytes of a body are read at most.
const LONGEST_BODY: u64 = 4096;

fn is_named(name: &[u8], wanted: &[u8]) -> bool
    ensures { result ≡ bytes_eq (map to_ascii_lowercase name.now)
        (map to_ascii_lowercase wanted.now) }
{
    name.eq_ignore_ascii_case(wanted)
}

fn count_named(buf: &[u8], headers: &[HeaderSpan], wanted: &[u8]) -> usize
    requires { All (IsHeaderWithin (length buf.now)) headers.now }
    ensures { result ≡ count_named wanted.now (fields_in buf.now headers.now) }
{
    let mut count = 0;
    for header in headers {
        if is_named(header.name.of(buf), wanted) {
            count += 1;
        }
    }
    count
}

fn first_named<'b>(buf: &'b [u8], headers: &[HeaderSpan], wanted: &[u8]) -> Option<&'b [u8]>
    requires { All (IsHeaderWithin (length buf.now)) headers.now }
    ensures { option_map (λ v. v.now) result
        ≡ first_named wanted.now (fields_in buf.now headers.now) }
{
    for header in headers {
        if is_named(header.name.of(buf), wanted) {
            return Some(header.value.of(buf));
        }
    }
    None
}

#[tactic(auto, using(std::proofs::lemmas::Bool::Decides::nat_tests))]
fn is_host_fine(minor: u8, hosts: usize) -> bool
    ensures { result ≡ is_host_fine minor hosts }
{
    hosts == 1 || (minor == 0 && hosts == 0)
}

// The length that one Content-Length field gives.
#[tactic(auto, using(std::proofs::lemmas::Bool::Decides::nat_tests))]
fn length_by(value: &[u8]) -> Length
    ensures { result ≡ length_by value.now }
{
    match number_up_to(value) {
        Some(number) => {
            if number > LONGEST_BODY {
                Length::TooLarge
            } else {
                Length::Given(number as usize)
            }
        }
        None => Length::Faulty,
    }
}

/// The length that the Content-Length fields give.
#[tactic(auto, unfolding(crate::specs::Fields::length_in))]
pub(crate) fn length_in(buf: &[u8], headers: &[HeaderSpan]) -> Length
    requires { All (IsHeaderWithin (length buf.now)) headers.now }
    ensures { result ≡ length_in (fields_in buf.now headers.now) }
{
    if count_named(buf, headers, b"content-length") > 1 {
        return Length::Faulty;
    }
    match first_named(buf, headers, b"content-length") {
        Some(value) => length_by(value),
        None => Length::Absent,
    }
}

/// The first test of its fields that the request fails.
#[tactic(auto, unfolding(crate::specs::Fields::fields_refused), using(std::proofs::lemmas::Bool::Decides::nat_tests))]
pub(crate) fn fields_refused(minor: u8, buf: &[u8], headers: &[HeaderSpan]) -> Option<Refused>
    requires { All (IsHeaderWithin (length buf.now)) headers.now }
    ensures { result ≡ fields_refused minor (fields_in buf.now headers.now) }
{
    if !is_host_fine(minor, count_named(buf, headers, b"host")) {
        return Some(Refused::Malformed(Part::Host));
    }
    if count_named(buf, headers, b"transfer-encoding") > 0 {
        return Some(Refused::NotImplemented);
    }
    if length_in(buf, headers).is_faulty() {
        return Some(Refused::Malformed(Part::ContentLength));
    }
    None
}
