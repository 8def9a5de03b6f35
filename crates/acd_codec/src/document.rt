//! The JSON of a request, looked up in place.

ghost use Rattle.std.specs.Prelude.{◌≡◌, ◌<◌, ◌==◌, ◌&&◌, length, slice_index, true, false, Some, option_map, option_and_then, is_some, IfOk, IfErr, IsTrue};
ghost use Rattle.json.specs.Json.{if_last};
ghost use Rattle.json.specs.Find.{as_array};
ghost use Rattle.json.specs.Value.{value_view, items_view, members_view};
ghost use Rattle.serde_json.specs.Data.{Members};
ghost use Rattle.fast_float.specs.Text.{minus};
ghost use Rattle.serde_json.specs.Read.{read, of_json, of_members, number_of, number_from};
ghost use Rattle.serde_json.specs.Find.{as_object, as_number, as_u64};
ghost use Rattle.acd_codec.specs.Documents.{json_of, data_of, value_data, items_data, is_below_zero};
ghost use Rattle.acd_codec.specs.MemberReading.{text_in, number_in, list_in, is_there, member_in};
ghost use Rattle.acd_codec.specs.RequestReading.{IsReadFault, request_from, reads_as};

use crate::fault::ReadFault;
use crate::member::Member;
use fast_float::Numeral;
use json::{Error, Reader, Scratch, Value};
use std::alloc::{AllocError, Global};
use std::marker::Model;

// Arrays and objects that nest deeper are no JSON here.
const MAX_DEPTH: usize = 127;

/// A text of JSON, with the value that it is. It is seen as the text; [`data_of`] says what data that is.
#[derive(Drop)]
pub(crate) struct Document<'a> {
    text: &'a str,
    value: Value<'a>,
}

impl<'a> Model for Document<'a> {
    ghost use Rattle.std.specs.Prelude.{◌≡◌, List, ℕ, Some};
    ghost use Rattle.json.specs.Value.{value_view};
    ghost use Rattle.serde_json.specs.Read.{of_json};
    ghost use Rattle.acd_codec.specs.Documents.{data_of};

    ghost Value = { List ℕ };

    ghost view = { λ d. d.text.now };

    ghost invariant = { λ d. of_json (value_view d.value) ≡ Some (data_of d.text.now) };
}

impl<'a> Document<'a> {
    /// The bytes as JSON. The scratch room is for texts with escapes.
    pub(crate) fn read(
        alloc: Global,
        bytes: &'a [u8],
        scratch: &'a mut Scratch,
    ) -> Result<Document<'a>, ReadFault>
        ensures ok { IfOk result (λ d. reads_as bytes.now ≡ request_from (Some (data_of d))) }
        ensures err { IfErr result (λ e. IsReadFault e (reads_as bytes.now)) }
    {
        let Ok(text) = std::str::from_utf8(bytes) else {
            return Err(ReadFault::Malformed(Member::Json));
        };
        match Document::parse(alloc, text, scratch)? {
            Some(document) => Ok(document),
            None => Err(ReadFault::Malformed(Member::Json)),
        }
    }

    // The text as JSON, if it is JSON whose numbers are in range.
    fn parse(
        alloc: Global,
        text: &'a str,
        scratch: &'a mut Scratch,
    ) -> Result<Option<Document<'a>>, AllocError>
        ensures { IfOk result (λ o. option_map data_of o ≡ read text.now) }
    {
        let Some(value) = parsed(alloc, text, scratch)? else {
            return Ok(None);
        };
        if is_in_range(&value) {
            Ok(Some(Document { text, value }))
        } else {
            Ok(None)
        }
    }

    pub(crate) fn is_object(&self) -> bool
        ensures { result ≡ is_some (as_object (data_of self.now)) }
    {
        matches!(self.value, Value::Object(_))
    }

    // The member, the last one of its name.
    fn find(&self, member: Member) -> Option<&Value<'a>>
        ensures { option_and_then (λ v. value_data v.now) result
            ≡ member_in member (data_of self.now) }
    {
        self.value.get(member.name())
    }

    /// The member, if it is a text.
    pub(crate) fn text(&self, member: Member) -> Option<&'a str>
        ensures { option_map (λ t. t.now) result ≡ text_in member (data_of self.now) }
    {
        match self.find(member) {
            None => None,
            Some(value) => value.as_str(),
        }
    }

    /// The member, if it is a whole number, written with no fraction, exponent or sign.
    pub(crate) fn number(&self, member: Member) -> Option<u64>
        ensures { result ≡ number_in member (data_of self.now) }
    {
        match self.find(member) {
            None => None,
            Some(value) => whole_number(value),
        }
    }

    /// The member, if it is a list.
    pub(crate) fn list(&self, member: Member) -> Option<&[Value<'a>]>
        ensures { option_and_then (λ vs. items_data vs.now) result
            ≡ list_in member (data_of self.now) }
    {
        match self.find(member) {
            None => None,
            Some(value) => items_in(value),
        }
    }

    /// There is a member of this name, whatever it is.
    pub(crate) fn has(&self, member: Member) -> bool
        ensures { result ≡ is_there member (data_of self.now) }
    {
        self.value.get(member.name()).is_some()
    }
}

// The items of a list.
fn items_in<'v, 'a>(value: &'v Value<'a>) -> Option<&'v [Value<'a>]>
    ensures { option_map (λ vs. items_view vs.now) result ≡ as_array (value_view value.now) }
{
    match value {
        Value::Array(items) => Some(items.as_slice()),
        _ => None,
    }
}

// The one value that the text is, if it is one.
fn parsed<'a>(
    alloc: Global,
    text: &'a str,
    scratch: &'a mut Scratch,
) -> Result<Option<Value<'a>>, AllocError>
    ensures { IfOk result (λ o. option_map value_view o ≡ json_of text.now) }
{
    let mut reader = Reader::new(text, scratch)?;
    match Value::read(alloc, &mut reader, MAX_DEPTH) {
        Ok(value) => Ok(if_last(value, &mut reader)),
        Err(Error::OutOfMemory) => Err(AllocError),
        Err(_) => Ok(None),
    }
}

// The value, if nothing is left.
fn if_last<'a>(value: Value<'a>, reader: &mut Reader<'a>) -> Option<Value<'a>>
    ensures { option_map value_view result ≡ if_last (value_view value.entry) reader.old }
{
    if reader.next().is_some() {
        return None;
    }
    Some(value)
}

// No number is too large for a float.
#[cycle(is_in_range)]
fn is_in_range(value: &Value<'_>) -> bool
    ensures { result ≡ is_some (value_data value.now) }
{
    match value {
        Value::Null | Value::Bool(_) | Value::String(_) => true,
        Value::Number(text) => is_number_in_range(text),
        Value::Array(items) => are_items_in_range(items),
        Value::Object(members) => are_members_in_range(members),
    }
}

#[cycle(is_in_range)]
fn are_items_in_range(items: &Vec<Value<'_>>) -> bool
    ensures { result ≡ is_some (items_data items.now.items) }
{
    for item in items {
        if !is_in_range(item) {
            return false;
        }
    }
    true
}

#[cycle(is_in_range)]
fn are_members_in_range(members: &Vec<(&str, Value<'_>)>) -> bool
    ensures { (found : Members)
        → result ≡ is_some (of_members (members_view members.now.items) found) }
{
    for member in members {
        if !is_in_range(&member.1) {
            return false;
        }
    }
    true
}

// A number with no point, exponent or sign, that fits.
fn whole_number(value: &Value<'_>) -> Option<u64>
    ensures { result ≡ option_and_then as_u64 (option_and_then as_number (value_data value.now)) }
{
    match value.as_number() {
        None => None,
        Some(text) => whole_of(text),
    }
}

fn whole_of(text: &str) -> Option<u64>
    ensures { result ≡ option_and_then as_u64 (number_of text.now) }
{
    let bytes = text.as_bytes();
    if has_minus(bytes) {
        None
    } else {
        unsigned(&Numeral::scan(bytes))
    }
}

fn unsigned(numeral: &Numeral<'_>) -> Option<u64>
    ensures { result ≡ option_and_then as_u64 (number_from false numeral.now) }
{
    numeral.to_u64()
}

// The number that the text is fits a whole number or a float.
fn is_number_in_range(text: &str) -> bool
    ensures { result ≡ is_some (number_of text.now) }
{
    let bytes = text.as_bytes();
    if has_minus(bytes) {
        is_negative_in_range(&Numeral::scan(&bytes[1..]))
    } else {
        is_positive_in_range(&Numeral::scan(bytes))
    }
}

fn has_minus(bytes: &[u8]) -> bool
    ensures value { result ≡ (slice_index bytes.now 0 == minus) }
    ensures len { IsTrue result → 0 < length bytes.now }
{
    !bytes.is_empty() && bytes[0] == b'-'
}

fn is_positive_in_range(numeral: &Numeral<'_>) -> bool
    ensures { result ≡ is_some (number_from false numeral.now) }
{
    numeral.to_u64().is_some() || numeral.to_float::<f64>(false).is_finite()
}

fn is_negative_in_range(numeral: &Numeral<'_>) -> bool
    ensures { result ≡ is_some (number_from true numeral.now) }
{
    is_below_zero(numeral) || numeral.to_float::<f64>(true).is_finite()
}

// A whole number below zero that fits.
fn is_below_zero(numeral: &Numeral<'_>) -> bool
    ensures { result ≡ is_below_zero numeral.now }
{
    numeral.to_i64(true).is_some_and(|n| n < 0)
}
