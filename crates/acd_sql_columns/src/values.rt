//! The values of a row, each read by its range. None is a value that is out of it.

ghost use Rattle.std.specs.Prelude.{◌≡◌, option_map};
ghost use Rattle.sqlite_value.specs.Value.{owned};
ghost use Rattle.sqlite_value.specs.Order.{column};
ghost use Rattle.acd_sql_columns.specs.Values.{is_null_value, text_at, whole_at, stamp_at, serial_at, moment_at, seconds_at, priority_at, device_at, agent_value_at, name_at, agent_state_at, pending_at, connection_state_at, kind_at, cause_at, status_at, utf8_of, body_at, or_none};

use crate::codes::{agent_state_of, cause_of, connection_state_of, event_kind_of, pending_of};
use acd_terms::{
    AgentId, AgentState, Cause, ConnectionState, DeviceId, EventKind, Name, Pending, Priority,
    Seconds, Serial,
};
use sqlite::Row;
use sqlite::types::ValueRef;
use std::str;

// The value in a column, and NULL past the row's end.
fn value(row: &Row, at: usize) -> ValueRef<'_>
    ensures { owned result ≡ column row.now at }
{
    match row.get_ref(at) {
        Ok(value) => value,
        Err(_) => ValueRef::Null,
    }
}

fn is_null_value(row: &Row, at: usize) -> bool
    ensures { result ≡ is_null_value (column row.now at) }
{
    matches!(value(row, at), ValueRef::Null)
}

/// A text, which need not be UTF-8.
pub fn text(row: &Row, at: usize) -> Option<&[u8]>
    ensures { option_map (λ t. t.now) result ≡ text_at row.now at }
{
    match value(row, at) {
        ValueRef::Text(text) => Some(text),
        _ => None,
    }
}

/// A number from 0.
pub fn whole(row: &Row, at: usize) -> Option<u64>
    ensures { result ≡ whole_at row.now at }
{
    match value(row, at) {
        ValueRef::Int(number) => u64::try_from(number).ok(),
        _ => None,
    }
}

/// A stamp, a place or the number of an event: a number from 1.
#[tactic(auto, unfolding(crate::specs::Values::stamp_at))]
pub fn stamp(row: &Row, at: usize) -> Option<u64>
    ensures { result ≡ stamp_at row.now at }
{
    let number = whole(row, at)?;
    if number >= 1 { Some(number) } else { None }
}

/// A call or a monitor.
#[tactic(auto, unfolding(crate::specs::Values::serial_at))]
pub fn serial(row: &Row, at: usize) -> Option<u64>
    ensures { result ≡ serial_at row.now at }
{
    let number = whole(row, at)?;
    Some(Serial::new(number)?.number())
}

#[tactic(auto, unfolding(crate::specs::Values::moment_at, acd_terms::specs::Forms::number_between))]
pub fn moment(row: &Row, at: usize) -> Option<u32>
    ensures { result ≡ moment_at row.now at }
{
    let number = whole(row, at)?;
    if number <= 4294967295 {
        Some(number as u32)
    } else {
        None
    }
}

#[tactic(auto, unfolding(crate::specs::Values::seconds_at))]
pub fn seconds(row: &Row, at: usize) -> Option<Seconds>
    ensures { result ≡ seconds_at row.now at }
{
    Seconds::new(whole(row, at)?)
}

/// A priority that isn't 0.
#[tactic(auto, unfolding(crate::specs::Values::priority_at, acd_terms::specs::Forms::number_between))]
pub fn priority(row: &Row, at: usize) -> Option<Priority>
    ensures { result ≡ priority_at row.now at }
{
    let number = whole(row, at)?;
    if number == 0 {
        return None;
    }
    Priority::new(number)
}

#[tactic(auto, unfolding(crate::specs::Values::device_at))]
pub fn device(row: &Row, at: usize) -> Option<DeviceId>
    ensures { result ≡ device_at row.now at }
{
    DeviceId::from_number(whole(row, at)?)
}

#[tactic(auto, unfolding(crate::specs::Values::agent_value_at))]
pub fn agent(row: &Row, at: usize) -> Option<AgentId>
    ensures { result ≡ agent_value_at row.now at }
{
    AgentId::from_number(whole(row, at)?)
}

#[tactic(auto, unfolding(crate::specs::Values::name_at))]
pub fn name(row: &Row, at: usize) -> Option<Name>
    ensures { result ≡ name_at row.now at }
{
    match text(row, at) {
        Some(text) => Name::read(text).ok(),
        None => None,
    }
}

#[tactic(auto, unfolding(crate::specs::Values::agent_state_at))]
pub fn agent_state(row: &Row, at: usize) -> Option<AgentState>
    ensures { result ≡ agent_state_at row.now at }
{
    agent_state_of(whole(row, at)?)
}

#[tactic(auto, unfolding(crate::specs::Values::connection_state_at))]
pub fn connection_state(row: &Row, at: usize) -> Option<ConnectionState>
    ensures { result ≡ connection_state_at row.now at }
{
    connection_state_of(whole(row, at)?)
}

#[tactic(auto, unfolding(crate::specs::Values::pending_at))]
pub fn pending_or_none(row: &Row, at: usize) -> Option<Option<Pending>>
    ensures { result ≡ or_none pending_at row.now at }
{
    if is_null_value(row, at) {
        return Some(None);
    }
    let pending = pending_of(whole(row, at)?)?;
    Some(Some(pending))
}

pub fn device_or_none(row: &Row, at: usize) -> Option<Option<DeviceId>>
    ensures { result ≡ or_none device_at row.now at }
{
    if is_null_value(row, at) {
        return Some(None);
    }
    let device = device(row, at)?;
    Some(Some(device))
}

pub fn stamp_or_none(row: &Row, at: usize) -> Option<Option<u64>>
    ensures { result ≡ or_none stamp_at row.now at }
{
    if is_null_value(row, at) {
        return Some(None);
    }
    let stamp = stamp(row, at)?;
    Some(Some(stamp))
}

pub fn moment_or_none(row: &Row, at: usize) -> Option<Option<u32>>
    ensures { result ≡ or_none moment_at row.now at }
{
    if is_null_value(row, at) {
        return Some(None);
    }
    let moment = moment(row, at)?;
    Some(Some(moment))
}

#[tactic(auto, unfolding(crate::specs::Values::kind_at))]
pub fn kind(row: &Row, at: usize) -> Option<EventKind>
    ensures { result ≡ kind_at row.now at }
{
    event_kind_of(whole(row, at)?)
}

#[tactic(auto, unfolding(crate::specs::Values::cause_at))]
pub fn cause_or_none(row: &Row, at: usize) -> Option<Option<Cause>>
    ensures { result ≡ or_none cause_at row.now at }
{
    if is_null_value(row, at) {
        return Some(None);
    }
    let cause = cause_of(whole(row, at)?)?;
    Some(Some(cause))
}

pub fn serial_or_none(row: &Row, at: usize) -> Option<Option<u64>>
    ensures { result ≡ or_none serial_at row.now at }
{
    if is_null_value(row, at) {
        return Some(None);
    }
    let serial = serial(row, at)?;
    Some(Some(serial))
}

pub fn agent_or_none(row: &Row, at: usize) -> Option<Option<AgentId>>
    ensures { result ≡ or_none agent_value_at row.now at }
{
    if is_null_value(row, at) {
        return Some(None);
    }
    let agent = agent(row, at)?;
    Some(Some(agent))
}

/// The status of a reply that is kept.
#[tactic(auto, unfolding(crate::specs::Values::status_at))]
pub fn status(row: &Row, at: usize) -> Option<u16>
    ensures { result ≡ status_at row.now at }
{
    match whole(row, at)? {
        200 => Some(200),
        409 => Some(409),
        _ => None,
    }
}

fn utf8(text: &[u8]) -> Option<&str>
    ensures { option_map (λ t. t.now) result ≡ utf8_of text.now }
{
    match str::from_utf8(text) {
        Ok(text) => Some(text),
        Err(_) => None,
    }
}

/// A text in UTF-8.
#[tactic(auto, unfolding(crate::specs::Values::body_at))]
pub fn body(row: &Row, at: usize) -> Option<&str>
    ensures { option_map (λ t. t.now) result ≡ body_at row.now at }
{
    utf8(text(row, at)?)
}
