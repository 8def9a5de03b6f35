//! Requests as JSON.

ghost use Rattle.std.specs.Prelude.{◌≡◌, codes, IfOk, string_bytes};
ghost use Rattle.serde_json.specs.Data.{string, no_members};
ghost use Rattle.acd_codec.specs.Services.{service_name};
ghost use Rattle.acd_codec.specs.RequestTexts.{named, asked, sent, AddsService, request_text, members_of, whose};
ghost use Rattle.acd_codec.specs.Tokens.{AddsMembers, AddsMember};

use crate::service::{Details, RequestedState, Service, taken_apart};
use crate::writing::{
    begun, begun_in, ended, ended_bytes, put_agent, put_device, put_groups, put_invoke,
    put_priority, put_requester, put_seconds, put_serial, put_text, put_whom,
};
use acd_terms::{AgentId, DeviceId, Name, Priority, Request, Requested, Seconds, Serial};
use json::Writer;
use std::alloc::{AllocError, Global};

// Every request fits, so it never grows.
const ROOM: usize = 320;

// Writes which service is asked for.
fn put_service(out: &mut Writer, service: Service) -> Result<(), AllocError>
    ensures { AddsMember result out.old out.new (codes "service") (string (service_name service)) }
{
    put_text(out, "service", service.name())
}

// Writes what every request has, where no other member comes between.
fn put_sent(out: &mut Writer, request: &Request, service: Service) -> Result<(), AllocError>
    ensures { AddsMembers result out.old out.new (sent (whose request.now) service no_members) }
{
    put_whom(out, &request.requester, request.invoke)?;
    put_service(out, service)
}

// Writes whose request it is, and the name between.
fn put_named(out: &mut Writer, request: &Request, name: &Name) -> Result<(), AllocError>
    ensures { AddsMembers result out.old out.new (named (whose request.now) name.now no_members) }
{
    put_invoke(out, request.invoke)?;
    put_text(out, "name", name.as_str())?;
    put_requester(out, &request.requester)
}

fn put_at_group(
    out: &mut Writer,
    request: &Request,
    service: Service,
    device: DeviceId,
    name: &Name,
    ring: Seconds,
    wrap: Seconds,
) -> Result<(), AllocError>
    ensures { AddsService result out request.now service (Details.Group device name.now ring wrap) }
{
    put_device(out, "device", Some(device))?;
    put_named(out, request, name)?;
    put_seconds(out, "ring", ring)?;
    put_service(out, service)?;
    put_seconds(out, "wrap", wrap)
}

fn put_at_agent(
    out: &mut Writer,
    request: &Request,
    service: Service,
    agent: AgentId,
    name: &Name,
) -> Result<(), AllocError>
    ensures { AddsService result out request.now service (Details.Agent agent name.now) }
{
    put_agent(out, "agent", Some(agent))?;
    put_named(out, request, name)?;
    put_service(out, service)
}

fn put_at_device(
    out: &mut Writer,
    request: &Request,
    service: Service,
    device: DeviceId,
) -> Result<(), AllocError>
    ensures { AddsService result out request.now service (Details.Device device) }
{
    put_device(out, "device", Some(device))?;
    put_sent(out, request, service)
}

fn put_at_connection(
    out: &mut Writer,
    request: &Request,
    service: Service,
    call: Serial,
    device: DeviceId,
) -> Result<(), AllocError>
    ensures { AddsService result out request.now service (Details.Connection call device) }
{
    put_serial(out, "call", call)?;
    put_at_device(out, request, service, device)
}

fn put_to_device(
    out: &mut Writer,
    request: &Request,
    service: Service,
    call: Serial,
    device: DeviceId,
    to: DeviceId,
) -> Result<(), AllocError>
    ensures { AddsService result out request.now service (Details.Transfer call device to) }
{
    put_at_connection(out, request, service, call, device)?;
    put_device(out, "to", Some(to))
}

fn put_arrive_call(
    out: &mut Writer,
    request: &Request,
    service: Service,
    caller: DeviceId,
    called: DeviceId,
) -> Result<(), AllocError>
    ensures { AddsService result out request.now service (Details.Arrival caller called) }
{
    put_device(out, "called", Some(called))?;
    put_device(out, "caller", Some(caller))?;
    put_sent(out, request, service)
}

fn put_make_call(
    out: &mut Writer,
    request: &Request,
    service: Service,
    device: DeviceId,
    called: DeviceId,
) -> Result<(), AllocError>
    ensures { AddsService result out request.now service (Details.Making device called) }
{
    put_device(out, "called", Some(called))?;
    put_at_device(out, request, service, device)
}

// Writes whose request it is, what the agent is asked for between, and the service.
fn put_asked(
    out: &mut Writer,
    request: &Request,
    service: Service,
    state: RequestedState,
) -> Result<(), AllocError>
    ensures { AddsMembers result out.old out.new (asked (whose request.now) service state) }
{
    put_invoke(out, request.invoke)?;
    put_text(out, "requested", state.name())?;
    put_requester(out, &request.requester)?;
    put_service(out, service)
}

fn put_set_agent_state(
    out: &mut Writer,
    request: &Request,
    service: Service,
    agent: AgentId,
    requested: Requested,
) -> Result<(), AllocError>
    ensures { AddsService result out request.now service (Details.State agent requested) }
{
    put_agent(out, "agent", Some(agent))?;
    match requested {
        Requested::LoggedOn { device, groups } => {
            put_device(out, "device", Some(device))?;
            put_groups(out, &groups.groups())?;
            put_asked(out, request, service, RequestedState::LoggedOn)
        }
        Requested::State(state) => put_asked(out, request, service, RequestedState::State(state)),
    }
}

fn put_monitor_stop(
    out: &mut Writer,
    request: &Request,
    service: Service,
    monitor: Serial,
) -> Result<(), AllocError>
    ensures { AddsService result out request.now service (Details.Monitor monitor) }
{
    put_invoke(out, request.invoke)?;
    put_serial(out, "monitor", monitor)?;
    put_requester(out, &request.requester)?;
    put_service(out, service)
}

fn put_set_group_priority(
    out: &mut Writer,
    request: &Request,
    service: Service,
    device: DeviceId,
    priority: Priority,
) -> Result<(), AllocError>
    ensures { AddsService result out request.now service (Details.Priority device priority) }
{
    put_device(out, "device", Some(device))?;
    put_invoke(out, request.invoke)?;
    put_priority(out, priority)?;
    put_requester(out, &request.requester)?;
    put_service(out, service)
}

// Writes the key, the service and its members.
fn put_members(
    out: &mut Writer,
    request: &Request,
    service: Service,
    details: &Details,
) -> Result<(), AllocError>
    ensures { AddsService result out request.now service details.now }
{
    match details {
        Details::Group {
            device,
            name,
            ring,
            wrap,
        } => put_at_group(out, request, service, *device, name, *ring, *wrap),
        Details::Agent { agent, name } => put_at_agent(out, request, service, *agent, name),
        Details::Device { device } => put_at_device(out, request, service, *device),
        Details::Arrival { caller, called } => {
            put_arrive_call(out, request, service, *caller, *called)
        }
        Details::Making { device, called } => {
            put_make_call(out, request, service, *device, *called)
        }
        Details::Connection { call, device } => {
            put_at_connection(out, request, service, *call, *device)
        }
        Details::Transfer { call, device, to } => {
            put_to_device(out, request, service, *call, *device, *to)
        }
        Details::State { agent, requested } => {
            put_set_agent_state(out, request, service, *agent, *requested)
        }
        Details::Monitor { monitor } => put_monitor_stop(out, request, service, *monitor),
        Details::Priority { device, priority } => {
            put_set_group_priority(out, request, service, *device, *priority)
        }
        Details::Nothing => put_sent(out, request, service),
    }
}

fn put_request(out: &mut Writer, request: &Request) -> Result<(), AllocError>
    ensures { AddsMembers result out.old out.new (members_of request.now) }
{
    let (service, details) = taken_apart(&request.command);
    put_members(out, request, service, &details)
}

/// Writes the one text of a request into a buffer, in place of what it holds.
pub(crate) fn request_bytes(buffer: Vec<u8>, request: &Request) -> Result<Vec<u8>, AllocError>
    ensures { IfOk result (λ bytes. bytes.items ≡ request_text request.now) }
{
    let mut out = begun_in(buffer)?;
    put_request(&mut out, request)?;
    ended_bytes(out)
}

/// The one text of a request: compact JSON, its members in the order of their names.
pub fn request_text(alloc: Global, request: &Request) -> Result<String, AllocError>
    ensures { IfOk result (λ s. string_bytes s ≡ request_text request.now) }
{
    let mut out = begun(alloc, ROOM)?;
    put_request(&mut out, request)?;
    ended(out)
}
