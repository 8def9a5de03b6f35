//! Requests out of JSON.

ghost use Rattle.std.specs.Prelude.{◌≡◌, [], Some, Ok, option_and_then, IfOk};
ghost use Rattle.std.specs.Str.{bytes_eq};
ghost use Rattle.serde_json.specs.Find.{as_str};
ghost use Rattle.acd_terms.specs.Groups.{with_all};
ghost use Rattle.acd_codec.specs.Documents.{data_of, value_data};
ghost use Rattle.acd_codec.specs.MemberReading.{device_of, device_in, agent_in, name_in, requester_in, invoke_in, seconds_in, priority_in, serial_in, service_in, requested_state_in, choice_of, groups_in, devices_named};
ghost use Rattle.acd_codec.specs.Services.{of_group, of_agent, of_device, of_arrival, of_making, of_connection, of_transfer, of_monitor, of_priority};
ghost use Rattle.acd_codec.specs.RequestReading.{Gives, form_in, group_in, named_agent_in, two_devices_in, connection_in, one_group_in, chosen_in, requested_in, set_agent_state_in, command_in, request_in, request_from, reads_as};
ghost use Rattle.acd_codec.specs.RequestTexts.{request_text};
ghost use Rattle.acd_codec.specs.KeptTexts.{request_of_text};

use crate::document::Document;
use crate::fault::ReadFault;
use crate::guess::guessed;
use crate::laws::reads_back;
use crate::member::Member;
use crate::requests::request_bytes;
use crate::service::{RequestedState, Service, services};
use acd_terms::{
    AgentId, Command, DeviceId, Groups, Invoke, Name, Priority, Request, Requested, Requester,
    Seconds, Serial, SomeGroups,
};
use json::{Scratch, Value};
use std::alloc::{AllocError, Global};
use std::mem;

#[tactic(auto, unfolding(crate::specs::MemberReading::device_in))]
fn device_in(document: &Document<'_>, member: Member) -> Result<DeviceId, Member>
    ensures { result ≡ device_in member (data_of document.now) }
{
    match document.text(member) {
        None => Err(member),
        Some(text) => DeviceId::read(text.as_bytes()).ok().ok_or(member),
    }
}

#[tactic(auto, unfolding(crate::specs::MemberReading::agent_in))]
fn agent_in(document: &Document<'_>) -> Result<AgentId, Member>
    ensures { result ≡ agent_in (data_of document.now) }
{
    match document.text(Member::Agent) {
        None => Err(Member::Agent),
        Some(text) => AgentId::read(text.as_bytes()).ok().ok_or(Member::Agent),
    }
}

#[tactic(auto, unfolding(crate::specs::MemberReading::name_in))]
fn name_in(document: &Document<'_>) -> Result<Name, Member>
    ensures { result ≡ name_in (data_of document.now) }
{
    match document.text(Member::Name) {
        None => Err(Member::Name),
        Some(text) => Name::read(text.as_bytes()).ok().ok_or(Member::Name),
    }
}

#[tactic(auto, unfolding(crate::specs::MemberReading::requester_in))]
fn requester_in(document: &Document<'_>) -> Result<Requester, Member>
    ensures { result ≡ requester_in (data_of document.now) }
{
    match document.text(Member::Requester) {
        None => Err(Member::Requester),
        Some(text) => Requester::read(text.as_bytes())
            .ok()
            .ok_or(Member::Requester),
    }
}

#[tactic(auto, unfolding(crate::specs::MemberReading::invoke_in))]
fn invoke_in(document: &Document<'_>) -> Result<Invoke, Member>
    ensures { result ≡ invoke_in (data_of document.now) }
{
    match document.number(Member::Invoke) {
        None => Err(Member::Invoke),
        Some(number) => Invoke::new(number).ok_or(Member::Invoke),
    }
}

#[tactic(auto, unfolding(crate::specs::MemberReading::seconds_in))]
fn seconds_in(document: &Document<'_>, member: Member) -> Result<Seconds, Member>
    ensures { result ≡ seconds_in member (data_of document.now) }
{
    match document.number(member) {
        None => Err(member),
        Some(number) => Seconds::new(number).ok_or(member),
    }
}

#[tactic(auto, unfolding(crate::specs::MemberReading::priority_in))]
fn priority_in(document: &Document<'_>) -> Result<Priority, Member>
    ensures { result ≡ priority_in (data_of document.now) }
{
    match document.number(Member::Priority) {
        None => Err(Member::Priority),
        Some(number) => Priority::new(number).ok_or(Member::Priority),
    }
}

#[tactic(auto, unfolding(crate::specs::MemberReading::serial_in))]
fn serial_in(document: &Document<'_>, member: Member) -> Result<Serial, Member>
    ensures { result ≡ serial_in member (data_of document.now) }
{
    match document.number(member) {
        None => Err(member),
        Some(number) => Serial::new(number).ok_or(member),
    }
}

#[tactic(auto, unfolding(crate::specs::MemberReading::service_in))]
fn service_in(document: &Document<'_>) -> Result<Service, Member>
    ensures { result ≡ service_in (data_of document.now) }
{
    match document.text(Member::Service) {
        None => Err(Member::Service),
        Some(text) => Service::named(text).ok_or(Member::Service),
    }
}

#[tactic(auto, unfolding(crate::specs::MemberReading::requested_state_in))]
fn requested_state_in(document: &Document<'_>) -> Result<RequestedState, Member>
    ensures { result ≡ requested_state_in (data_of document.now) }
{
    match document.text(Member::Requested) {
        None => Err(Member::Requested),
        Some(text) => RequestedState::named(text).ok_or(Member::Requested),
    }
}

// The device that an item of a list names.
fn device_of(item: &Value<'_>) -> Option<DeviceId>
    ensures { result ≡ option_and_then device_of (option_and_then as_str (value_data item.now)) }
{
    match item.as_str() {
        None => None,
        Some(text) => DeviceId::read(text.as_bytes()).ok(),
    }
}

// The groups that a list names, in whatever order.
fn groups_of(items: &[Value<'_>]) -> Option<Groups>
    ensures { result ≡ option_and_then (with_all []) (devices_named items.now) }
{
    let mut groups = Groups::none();
    for item in items {
        groups = groups.with(device_of(item)?)?;
    }
    Some(groups)
}

// The same, where it names any.
fn choice_of(items: &[Value<'_>]) -> Option<SomeGroups>
    ensures { result ≡ option_and_then choice_of (devices_named items.now) }
{
    match groups_of(items) {
        None => None,
        Some(groups) => SomeGroups::of(groups),
    }
}

#[tactic(auto, unfolding(crate::specs::MemberReading::groups_in))]
fn groups_in(document: &Document<'_>) -> Result<SomeGroups, Member>
    ensures { result ≡ groups_in (data_of document.now) }
{
    match document.list(Member::Groups) {
        None => Err(Member::Groups),
        Some(items) => choice_of(items).ok_or(Member::Groups),
    }
}

// A group, its name, its ring and its wrap.
#[tactic(auto, unfolding(crate::specs::RequestReading::group_in))]
fn group_in(document: &Document<'_>) -> Result<(DeviceId, Name, Seconds, Seconds), Member>
    ensures { result ≡ group_in (data_of document.now) }
{
    let device = device_in(document, Member::Device)?;
    let name = name_in(document)?;
    let ring = seconds_in(document, Member::Ring)?;
    let wrap = seconds_in(document, Member::Wrap)?;
    Ok((device, name, ring, wrap))
}

fn add_group_in(document: &Document<'_>) -> Result<Command, Member>
    ensures { result ≡ form_in (of_group Command.AddGroup) (data_of document.now) }
{
    let (device, name, ring, wrap) = group_in(document)?;
    Ok(Command::AddGroup {
        device,
        name,
        ring,
        wrap,
    })
}

fn change_group_in(document: &Document<'_>) -> Result<Command, Member>
    ensures { result ≡ form_in (of_group Command.ChangeGroup) (data_of document.now) }
{
    let (device, name, ring, wrap) = group_in(document)?;
    Ok(Command::ChangeGroup {
        device,
        name,
        ring,
        wrap,
    })
}

// An agent and a name.
#[tactic(auto, unfolding(crate::specs::RequestReading::named_agent_in))]
fn named_agent_in(document: &Document<'_>) -> Result<(AgentId, Name), Member>
    ensures { result ≡ named_agent_in (data_of document.now) }
{
    let agent = agent_in(document)?;
    let name = name_in(document)?;
    Ok((agent, name))
}

fn add_agent_in(document: &Document<'_>) -> Result<Command, Member>
    ensures { result ≡ form_in (of_agent Command.AddAgent) (data_of document.now) }
{
    let (agent, name) = named_agent_in(document)?;
    Ok(Command::AddAgent { agent, name })
}

fn change_agent_in(document: &Document<'_>) -> Result<Command, Member>
    ensures { result ≡ form_in (of_agent Command.ChangeAgent) (data_of document.now) }
{
    let (agent, name) = named_agent_in(document)?;
    Ok(Command::ChangeAgent { agent, name })
}

// Two devices that are named one after the other.
#[tactic(auto, unfolding(crate::specs::RequestReading::two_devices_in))]
fn two_devices_in(
    document: &Document<'_>,
    first: Member,
    second: Member,
) -> Result<(DeviceId, DeviceId), Member>
    ensures { result ≡ two_devices_in first second (data_of document.now) }
{
    let first = device_in(document, first)?;
    let second = device_in(document, second)?;
    Ok((first, second))
}

// A call and a device.
#[tactic(auto, unfolding(crate::specs::RequestReading::connection_in))]
fn connection_in(document: &Document<'_>) -> Result<(Serial, DeviceId), Member>
    ensures { result ≡ connection_in (data_of document.now) }
{
    let call = serial_in(document, Member::Call)?;
    let device = device_in(document, Member::Device)?;
    Ok((call, device))
}

#[tactic(auto, unfolding(crate::specs::RequestReading::one_group_in))]
fn one_group_in(document: &Document<'_>) -> Result<SomeGroups, Member>
    ensures { result ≡ one_group_in (data_of document.now) }
{
    let group = device_in(document, Member::Group)?;
    Ok(SomeGroups::one(group))
}

// The groups of a log-on: one by itself, or else a list.
#[tactic(auto, unfolding(crate::specs::RequestReading::chosen_in))]
fn chosen_in(document: &Document<'_>) -> Result<SomeGroups, Member>
    ensures { result ≡ chosen_in (data_of document.now) }
{
    if document.has(Member::Group) {
        one_group_in(document)
    } else if document.has(Member::Groups) {
        groups_in(document)
    } else {
        Err(Member::Group)
    }
}

#[tactic(auto, unfolding(crate::specs::RequestReading::requested_in))]
fn requested_in(document: &Document<'_>, state: RequestedState) -> Result<Requested, Member>
    ensures { result ≡ requested_in (data_of document.now) state }
{
    match state {
        RequestedState::LoggedOn => {
            let device = device_in(document, Member::Device)?;
            let groups = chosen_in(document)?;
            Ok(Requested::LoggedOn { device, groups })
        }
        RequestedState::State(state) => Ok(Requested::State(state)),
    }
}

#[tactic(auto, unfolding(crate::specs::RequestReading::set_agent_state_in))]
fn set_agent_state_in(document: &Document<'_>) -> Result<Command, Member>
    ensures { result ≡ set_agent_state_in (data_of document.now) }
{
    let agent = agent_in(document)?;
    let state = requested_state_in(document)?;
    let requested = requested_in(document, state)?;
    Ok(Command::SetAgentState { agent, requested })
}

fn add_station_in(document: &Document<'_>) -> Result<Command, Member>
    ensures { result ≡ form_in (of_device Command.AddStation) (data_of document.now) }
{
    let device = device_in(document, Member::Device)?;
    Ok(Command::AddStation { device })
}

fn arrive_call_in(document: &Document<'_>) -> Result<Command, Member>
    ensures { result ≡ form_in of_arrival (data_of document.now) }
{
    let (caller, called) = two_devices_in(document, Member::Caller, Member::Called)?;
    Ok(Command::ArriveCall { caller, called })
}

fn make_call_in(document: &Document<'_>) -> Result<Command, Member>
    ensures { result ≡ form_in of_making (data_of document.now) }
{
    let (device, called) = two_devices_in(document, Member::Device, Member::Called)?;
    Ok(Command::MakeCall { device, called })
}

fn phone_off_hook_in(document: &Document<'_>) -> Result<Command, Member>
    ensures { result ≡ form_in (of_connection Command.PhoneOffHook) (data_of document.now) }
{
    let (call, device) = connection_in(document)?;
    Ok(Command::PhoneOffHook { call, device })
}

fn answer_call_in(document: &Document<'_>) -> Result<Command, Member>
    ensures { result ≡ form_in (of_connection Command.AnswerCall) (data_of document.now) }
{
    let (call, device) = connection_in(document)?;
    Ok(Command::AnswerCall { call, device })
}

fn hold_call_in(document: &Document<'_>) -> Result<Command, Member>
    ensures { result ≡ form_in (of_connection Command.HoldCall) (data_of document.now) }
{
    let (call, device) = connection_in(document)?;
    Ok(Command::HoldCall { call, device })
}

fn retrieve_call_in(document: &Document<'_>) -> Result<Command, Member>
    ensures { result ≡ form_in (of_connection Command.RetrieveCall) (data_of document.now) }
{
    let (call, device) = connection_in(document)?;
    Ok(Command::RetrieveCall { call, device })
}

fn clear_connection_in(document: &Document<'_>) -> Result<Command, Member>
    ensures { result ≡ form_in (of_connection Command.ClearConnection) (data_of document.now) }
{
    let (call, device) = connection_in(document)?;
    Ok(Command::ClearConnection { call, device })
}

fn reject_call_in(document: &Document<'_>) -> Result<Command, Member>
    ensures { result ≡ form_in (of_connection Command.RejectCall) (data_of document.now) }
{
    let (call, device) = connection_in(document)?;
    Ok(Command::RejectCall { call, device })
}

fn deflect_call_in(document: &Document<'_>) -> Result<Command, Member>
    ensures { result ≡ form_in (of_transfer Command.DeflectCall) (data_of document.now) }
{
    let (call, device) = connection_in(document)?;
    let to = device_in(document, Member::To)?;
    Ok(Command::DeflectCall { call, device, to })
}

fn single_step_transfer_in(document: &Document<'_>) -> Result<Command, Member>
    ensures { result ≡ form_in (of_transfer Command.SingleStepTransfer) (data_of document.now) }
{
    let (call, device) = connection_in(document)?;
    let to = device_in(document, Member::To)?;
    Ok(Command::SingleStepTransfer { call, device, to })
}

fn monitor_start_in(document: &Document<'_>) -> Result<Command, Member>
    ensures { result ≡ form_in (of_device Command.MonitorStart) (data_of document.now) }
{
    let device = device_in(document, Member::Device)?;
    Ok(Command::MonitorStart { device })
}

fn monitor_stop_in(document: &Document<'_>) -> Result<Command, Member>
    ensures { result ≡ form_in of_monitor (data_of document.now) }
{
    let monitor = serial_in(document, Member::Monitor)?;
    Ok(Command::MonitorStop { monitor })
}

fn set_group_priority_in(document: &Document<'_>) -> Result<Command, Member>
    ensures { result ≡ form_in of_priority (data_of document.now) }
{
    let device = device_in(document, Member::Device)?;
    let priority = priority_in(document)?;
    Ok(Command::SetGroupPriority { device, priority })
}

fn tick_in(_document: &Document<'_>) -> Result<Command, Member>
    ensures { result ≡ Ok Command.Tick }
{
    Ok(Command::Tick)
}

macro_rules! read {
    ($of:ident, $document:ident, $($service:ident $name:literal $read:ident $details:ident $fields:tt),*) => {
        match $of {
            $(Service::$service => $read($document),)*
        }
    };
}

// The members of a service, in their order.
fn command_in(service: Service, document: &Document<'_>) -> Result<Command, Member>
    ensures { result ≡ command_in service (data_of document.now) }
{
    services!(read, service, document)
}

#[tactic(auto, unfolding(crate::specs::RequestReading::request_in))]
fn request_in(document: &Document<'_>) -> Result<Request, Member>
    ensures { result ≡ request_in (data_of document.now) }
{
    let requester = requester_in(document)?;
    let invoke = invoke_in(document)?;
    let service = service_in(document)?;
    let command = command_in(service, document)?;
    Ok(Request {
        requester,
        invoke,
        command,
    })
}

// The request that a document represents.
fn request_of(document: &Document<'_>) -> Result<Request, Member>
    ensures { result ≡ request_from (Some (data_of document.now)) }
{
    if !document.is_object() {
        return Err(Member::Json);
    }
    request_in(document)
}

/// Reads requests, one after another. It keeps from one to the next the room in which texts are read and written.
#[derive(Drop)]
pub struct RequestReader {
    alloc: Global,
    scratch: Scratch,
    // The text that was written last.
    written: Vec<u8>,
}

impl RequestReader {
    pub fn new(alloc: Global) -> RequestReader {
        RequestReader {
            alloc,
            scratch: Scratch::new(alloc),
            written: Vec::new(alloc),
        }
    }

    /// The request that the bytes represent, or the first faulty member.
    pub fn read(&mut self, bytes: &[u8]) -> Result<Request, ReadFault>
        ensures { Gives result (reads_as bytes.now) }
    {
        let document = Document::read(self.alloc, bytes, &mut self.scratch)?;
        let request = request_of(&document)?;
        Ok(request)
    }

    // Whether the bytes are the text of the request.
    fn is_text_of(&mut self, bytes: &[u8], request: &Request) -> Result<bool, AllocError>
        ensures { IfOk result (λ same. same ≡ bytes_eq bytes.now (request_text request.now)) }
    {
        let buffer = mem::replace(&mut self.written, Vec::new(self.alloc));
        self.written = request_bytes(buffer, request)?;
        Ok(bytes == self.written.as_slice())
    }

    // The request whose text the bytes are, read as JSON.
    #[tactic(auto, unfolding(crate::specs::KeptTexts::request_of_text))]
    fn read_whole(&mut self, text: &[u8]) -> Result<Option<Request>, AllocError>
        ensures { IfOk result (λ request. request ≡ request_of_text text.now) }
    {
        match self.read(text) {
            Ok(request) => {
                if self.is_text_of(text, &request)? {
                    Ok(Some(request))
                } else {
                    Ok(None)
                }
            }
            Err(ReadFault::Malformed(_)) => Ok(None),
            Err(ReadFault::NoMemory) => Err(AllocError),
        }
    }

    /// The request whose one text this is, as [`request_text`] writes it.
    #[tactic(auto, using(crate::proofs::KeptTexts::text_again))]
    pub fn request_of_text(&mut self, text: &[u8]) -> Result<Option<Request>, AllocError>
        ensures { IfOk result (λ request. request ≡ request_of_text text.now) }
    {
        if let Some(request) = guessed(text) {
            if self.is_text_of(text, &request)? {
                reads_back(&request);
                return Ok(Some(request));
            }
        }
        self.read_whole(text)
    }
}

/// The same for one request alone.
pub fn read_request(alloc: Global, bytes: &[u8]) -> Result<Request, ReadFault>
    ensures { Gives result (reads_as bytes.now) }
{
    RequestReader::new(alloc).read(bytes)
}
