//! Values as they are bound to the parameters of a statement.

ghost use Rattle.std.specs.Prelude.{◌≡◌, IfSome};
ghost use Rattle.sqlite.specs.Values.{bound_value, or_null};
ghost use Rattle.sqlite_value.specs.Value.{owned};
ghost use Rattle.sqlite_value.specs.declared.value.Value.TheVariants.{Text};
ghost use Rattle.acd_sql_columns.specs.Values.{id_value};
ghost use Rattle.acd_sql_columns.specs.Codes.{agent_code, pending_code, connection_code, kind_code, cause_code};
ghost use Rattle.acd_sql_columns.specs.Transactions.{Fits};

use crate::codes::{agent_code, cause_code, connection_code, kind_code, pending_code};
use acd_terms::{
    AgentId, AgentState, Cause, ConnectionState, DeviceId, EventKind, Name, Pending, Priority,
    Seconds,
};
use sqlite::types::ValueRef;

pub fn integer(number: u64) -> ValueRef<'static>
    requires { Fits number }
    ensures { bound_value (owned result) ≡ id_value number }
{
    ValueRef::Int(number as i64)
}

pub fn small(number: u32) -> ValueRef<'static>
    ensures { bound_value (owned result) ≡ id_value number }
{
    ValueRef::Int(i64::from(number))
}

pub fn device(device: DeviceId) -> ValueRef<'static>
    ensures { bound_value (owned result) ≡ id_value device }
{
    integer(device.number())
}

pub fn agent(agent: AgentId) -> ValueRef<'static>
    ensures { bound_value (owned result) ≡ id_value agent }
{
    integer(agent.number())
}

pub fn text(text: &[u8]) -> ValueRef<'_>
    ensures { bound_value (owned result) ≡ Text text.now }
{
    ValueRef::Text(text)
}

pub fn name(name: &Name) -> ValueRef<'_>
    ensures { bound_value (owned result) ≡ Text name.now }
{
    ValueRef::Text(name.as_bytes())
}

pub fn seconds(seconds: Seconds) -> ValueRef<'static>
    ensures { bound_value (owned result) ≡ id_value seconds }
{
    small(u32::from(seconds.number()))
}

pub fn priority(priority: Priority) -> ValueRef<'static>
    ensures { bound_value (owned result) ≡ id_value priority }
{
    small(u32::from(priority.number()))
}

pub fn agent_state(state: AgentState) -> ValueRef<'static>
    ensures { bound_value (owned result) ≡ id_value (agent_code state) }
{
    small(agent_code(state))
}

pub fn connection_state(state: ConnectionState) -> ValueRef<'static>
    ensures { bound_value (owned result) ≡ id_value (connection_code state) }
{
    small(connection_code(state))
}

pub fn kind(kind: EventKind) -> ValueRef<'static>
    ensures { bound_value (owned result) ≡ id_value (kind_code kind) }
{
    small(kind_code(kind))
}

pub fn integer_or_null(value: Option<u64>) -> ValueRef<'static>
    requires { IfSome value Fits }
    ensures { bound_value (owned result) ≡ or_null id_value value }
{
    match value {
        Some(value) => integer(value),
        None => ValueRef::Null,
    }
}

pub fn small_or_null(value: Option<u32>) -> ValueRef<'static>
    ensures { bound_value (owned result) ≡ or_null id_value value }
{
    match value {
        Some(value) => small(value),
        None => ValueRef::Null,
    }
}

pub fn device_or_null(value: Option<DeviceId>) -> ValueRef<'static>
    ensures { bound_value (owned result) ≡ or_null id_value value }
{
    match value {
        Some(value) => device(value),
        None => ValueRef::Null,
    }
}

pub fn agent_or_null(value: Option<AgentId>) -> ValueRef<'static>
    ensures { bound_value (owned result) ≡ or_null id_value value }
{
    match value {
        Some(value) => agent(value),
        None => ValueRef::Null,
    }
}

pub fn pending_or_null(value: Option<Pending>) -> ValueRef<'static>
    ensures { bound_value (owned result) ≡ or_null (λ p. id_value (pending_code p)) value }
{
    match value {
        Some(value) => small(pending_code(value)),
        None => ValueRef::Null,
    }
}

pub fn cause_or_null(value: Option<Cause>) -> ValueRef<'static>
    ensures { bound_value (owned result) ≡ or_null (λ w. id_value (cause_code w)) value }
{
    match value {
        Some(value) => small(cause_code(value)),
        None => ValueRef::Null,
    }
}
