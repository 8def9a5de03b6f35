//! Laws of requests and their texts.

ghost use Rattle.std.specs.Prelude.{◌≡◌, ◌↔◌, Ok};
ghost use Rattle.acd_terms.specs.Lists.{Every};
ghost use Rattle.acd_codec.specs.RequestForms.{IsSerial, IsDevice, IsRequested, AreFormed, IsCommand, IsRequest};
ghost use Rattle.acd_codec.specs.RequestReading.{reads_as};
ghost use Rattle.acd_codec.specs.OldReading.{OldReadsTheSame};
ghost use Rattle.acd_codec.specs.RequestTexts.{request_text};

use crate::service::{Details, taken_apart};
use acd_terms::{Command, DeviceId, Request, Requested, Serial};

fn connection_formed(call: &Serial, device: &DeviceId)
    ensures call { IsSerial call.now }
    ensures device { IsDevice device.now }
{
    call.number();
    device.number();
}

fn devices_formed(devices: &[DeviceId])
    ensures { Every IsDevice devices.now }
{
    for device in devices {
        device.number();
    }
}

fn requested_formed(requested: &Requested)
    ensures { IsRequested requested.now }
{
    if let Requested::LoggedOn { device, groups } = requested {
        device.number();
        devices_formed(groups.groups().as_slice());
    }
}

fn details_formed(details: &Details)
    ensures { AreFormed details.now }
{
    match details {
        Details::Group {
            device,
            name,
            ring,
            wrap,
        } => {
            device.number();
            name.as_str();
            ring.number();
            wrap.number();
        }
        Details::Agent { agent, name } => {
            agent.number();
            name.as_str();
        }
        Details::Device { device } => {
            device.number();
        }
        Details::Arrival {
            caller: device,
            called,
        }
        | Details::Making { device, called } => {
            device.number();
            called.number();
        }
        Details::Connection { call, device } => connection_formed(call, device),
        Details::Transfer { call, device, to } => {
            connection_formed(call, device);
            to.number();
        }
        Details::State { agent, requested } => {
            agent.number();
            requested_formed(requested);
        }
        Details::Monitor { monitor } => {
            monitor.number();
        }
        Details::Priority { device, priority } => {
            device.number();
            priority.number();
        }
        Details::Nothing => {}
    }
}

fn command_formed(command: &Command)
    ensures { IsCommand command.now }
{
    let (_, details) = taken_apart(command);
    details_formed(&details);
}

/// Each part of a request is of its form.
pub fn request_formed(request: &Request)
    ensures { IsRequest request.now }
{
    request.requester.as_str();
    request.invoke.number();
    command_formed(&request.command);
}

/// The text written for a request reads as that request.
pub fn reads_back(request: &Request)
    ensures { reads_as (request_text request.now) ≡ Ok request.now }
{
    request_formed(request);
}

/// Two requests are the same exactly where their texts are equal.
pub fn same_text(a: &Request, b: &Request)
    ensures { (request_text a.now ≡ request_text b.now) ↔ (a.now ≡ b.now) }
{
    request_formed(a);
    request_formed(b);
}

/// Bytes that were read as a request while an agent was in one group and groups had no priority are read as the same
/// request.
pub fn old_reads_the_same()
    ensures { OldReadsTheSame }
{}
