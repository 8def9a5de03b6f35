//! Rows of a plan, and the commands that they represent.

ghost use Rattle.std.specs.Prelude.{◌≡◌, ◌<◌, ◌≤◌, length, true, option_map};
ghost use Rattle.std.specs.List.{list_all};
ghost use Rattle.std.specs.Char.{is_ascii_digit};
ghost use Rattle.std.specs.Str.{is_utf8};
ghost use Rattle.std.specs.Str.Parse.{digits_value};
ghost use Rattle.csv.specs.Records.{field_at, fields_of};
ghost use Rattle.acd_reports.specs.Plan.{names_columns};
ghost use Rattle.acd_reports.specs.PlanRows.{plan_row, texts_of, plan_row_of, device_in_field, agent_in_field, name_in_field, seconds_of, seconds_in_field, nothing_in, group_in_row, station_in_row, agent_row_in, command_of, command_in_record};

use crate::fault::PlanMember;
use acd_terms::{AgentId, Command, DeviceId, Name, Seconds};
use csv::ByteRecord;
use std::str;

// The fields of a row.
#[derive(Clone, Copy)]
struct Fields<'a> {
    kind: &'a [u8],
    number: &'a [u8],
    name: &'a [u8],
    ring: &'a [u8],
    wrap: &'a [u8],
}

fn is_text(field: &[u8]) -> bool
    ensures { result ≡ is_utf8 field.now }
{
    str::from_utf8(field).is_ok()
}

fn device_in_field(text: &[u8]) -> Result<DeviceId, PlanMember>
    ensures { result ≡ device_in_field text.now }
{
    DeviceId::read(text).ok().ok_or(PlanMember::Number)
}

fn agent_in_field(text: &[u8]) -> Result<AgentId, PlanMember>
    ensures { result ≡ agent_in_field text.now }
{
    AgentId::read(text).ok().ok_or(PlanMember::Number)
}

fn name_in_field(text: &[u8]) -> Result<Name, PlanMember>
    ensures { result ≡ name_in_field text.now }
{
    Name::read(text).ok().ok_or(PlanMember::Name)
}

fn are_digits(text: &[u8]) -> bool
    ensures { result ≡ list_all is_ascii_digit text.now }
{
    text.iter().all(|b| b.is_ascii_digit())
}

fn number_of(digits: &[u8]) -> u64
    requires short { length digits.now ≤ 4 }
    requires all { list_all is_ascii_digit digits.now ≡ true }
    ensures { result ≡ digits_value 10 digits.now }
{
    let mut number = 0u64;
    for digit in digits {
        number = number * 10 + u64::from(*digit - b'0');
    }
    number
}

#[tactic(auto, unfolding(crate::specs::PlanRows::seconds_of))]
fn seconds_of(text: &[u8]) -> Option<Seconds>
    ensures { result ≡ seconds_of text.now }
{
    if text.is_empty() || text.len() > 4 || !are_digits(text) {
        return None;
    }
    Seconds::new(number_of(text))
}

fn seconds_in_field(member: PlanMember, text: &[u8]) -> Result<Seconds, PlanMember>
    ensures { result ≡ seconds_in_field member text.now }
{
    seconds_of(text).ok_or(member)
}

fn nothing_in(member: PlanMember, text: &[u8]) -> Result<(), PlanMember>
    ensures { result ≡ nothing_in member text.now }
{
    if text.is_empty() { Ok(()) } else { Err(member) }
}

fn field(row: &ByteRecord, place: usize) -> &[u8]
    requires { place < length (fields_of row.now) }
    ensures { field_at (fields_of row.now) place ≡ Some result.now }
{
    row.get(place).unwrap()
}

fn are_texts(fields: Fields<'_>) -> bool
    ensures { result ≡ list_all is_utf8 (texts_of (plan_row fields.entry)) }
{
    is_text(fields.kind)
        && is_text(fields.number)
        && is_text(fields.name)
        && is_text(fields.ring)
        && is_text(fields.wrap)
}

fn fields_in(row: &ByteRecord) -> Option<Fields<'_>>
    ensures { option_map plan_row result ≡ plan_row_of (fields_of row.now) }
{
    if row.len() != 5 {
        return None;
    }
    let fields = Fields {
        kind: field(row, 0),
        number: field(row, 1),
        name: field(row, 2),
        ring: field(row, 3),
        wrap: field(row, 4),
    };
    if !are_texts(fields) {
        return None;
    }
    Some(fields)
}

#[tactic(auto, unfolding(crate::specs::PlanRows::group_in_row))]
fn group_in_row(fields: Fields<'_>) -> Result<Command, PlanMember>
    ensures { result ≡ group_in_row (plan_row fields.entry) }
{
    let device = device_in_field(fields.number)?;
    let name = name_in_field(fields.name)?;
    let ring = seconds_in_field(PlanMember::Ring, fields.ring)?;
    let wrap = seconds_in_field(PlanMember::Wrap, fields.wrap)?;
    Ok(Command::AddGroup {
        device,
        name,
        ring,
        wrap,
    })
}

#[tactic(auto, unfolding(crate::specs::PlanRows::station_in_row))]
fn station_in_row(fields: Fields<'_>) -> Result<Command, PlanMember>
    ensures { result ≡ station_in_row (plan_row fields.entry) }
{
    let device = device_in_field(fields.number)?;
    nothing_in(PlanMember::Name, fields.name)?;
    nothing_in(PlanMember::Ring, fields.ring)?;
    nothing_in(PlanMember::Wrap, fields.wrap)?;
    Ok(Command::AddStation { device })
}

#[tactic(auto, unfolding(crate::specs::PlanRows::agent_row_in))]
fn agent_row_in(fields: Fields<'_>) -> Result<Command, PlanMember>
    ensures { result ≡ agent_row_in (plan_row fields.entry) }
{
    let agent = agent_in_field(fields.number)?;
    let name = name_in_field(fields.name)?;
    nothing_in(PlanMember::Ring, fields.ring)?;
    nothing_in(PlanMember::Wrap, fields.wrap)?;
    Ok(Command::AddAgent { agent, name })
}

#[tactic(auto, unfolding(crate::specs::PlanRows::command_of))]
fn command_of(fields: Fields<'_>) -> Result<Command, PlanMember>
    ensures { result ≡ command_of (plan_row fields.entry) }
{
    if fields.kind == b"group".as_slice() {
        return group_in_row(fields);
    }
    if fields.kind == b"station".as_slice() {
        return station_in_row(fields);
    }
    if fields.kind == b"agent".as_slice() {
        return agent_row_in(fields);
    }
    Err(PlanMember::Kind)
}

/// The five fields name the columns.
pub(crate) fn names_columns(row: &ByteRecord) -> bool
    ensures { result ≡ names_columns (plan_row_of (fields_of row.now)) }
{
    match fields_in(row) {
        None => false,
        Some(fields) => {
            fields.kind == b"kind".as_slice()
                && fields.number == b"number".as_slice()
                && fields.name == b"name".as_slice()
                && fields.ring == b"ring".as_slice()
                && fields.wrap == b"wrap".as_slice()
        }
    }
}

/// The command of a row, or its first faulty member.
#[tactic(auto, unfolding(crate::specs::PlanRows::command_in_record))]
pub(crate) fn command_in_record(row: &ByteRecord) -> Result<Command, PlanMember>
    ensures { result ≡ command_in_record (fields_of row.now) }
{
    match fields_in(row) {
        None => Err(PlanMember::Fields),
        Some(fields) => command_of(fields),
    }
}
