//! A request guessed from its text by the places of its members, which takes a fraction of what it takes to read JSON.
//!
//! Nothing is promised of a guess: whoever takes one compares the text that is written for it. Only requests of which a
//! desk keeps many are guessed.

use crate::service::{RequestedState, Service};
use acd_terms::{AgentId, Command, DeviceId, Invoke, Request, Requested, Requester, Serial};
use fast_float::parse_u64;
use std::str::from_utf8;

// No text that is guessed has more members.
const MOST: usize = 6;

// The values of an object's members, in their order: the digits of a number, or what is between the quotes of a text.
#[derive(Clone, Copy)]
struct Values<'a> {
    list: [&'a [u8]; MOST],
    count: usize,
}

impl<'a> Values<'a> {
    fn of(object: &'a [u8]) -> Option<Values<'a>> {
        let mut list = [object; MOST];
        let mut rest = object.get(1..)?;
        for place in 0..MOST {
            let (value, after) = first_value(rest)?;
            list[place] = value;
            if after.is_empty() {
                let count = place + 1;
                return Some(Values { list, count });
            }
            rest = after;
        }
        None
    }
}

// What is before the first byte of this value, and what is after it.
fn cut(bytes: &[u8], byte: u8) -> Option<(&[u8], &[u8])> {
    for place in 0..bytes.len() {
        if bytes[place] == byte {
            return Some((&bytes[..place], &bytes[place + 1..]));
        }
    }
    None
}

// The digits that come first, and what is after the byte that follows them.
fn cut_number(bytes: &[u8]) -> Option<(&[u8], &[u8])> {
    for place in 0..bytes.len() {
        if !bytes[place].is_ascii_digit() {
            return Some((&bytes[..place], &bytes[place + 1..]));
        }
    }
    None
}

// The value of the first of these members, and the members after it.
fn first_value(members: &[u8]) -> Option<(&[u8], &[u8])> {
    let (_, value) = cut(members, b':')?;
    if value.first() != Some(&b'"') {
        return cut_number(value);
    }
    let (text, rest) = cut(&value[1..], b'"')?;
    Some((text, rest.get(1..)?))
}

fn device_of(text: &[u8]) -> Option<DeviceId> {
    DeviceId::read(text).ok()
}

fn serial_of(digits: &[u8]) -> Option<Serial> {
    Serial::new(parse_u64(digits).ok()?)
}

fn service_of(text: &[u8]) -> Option<Service> {
    Service::named(from_utf8(text).ok()?)
}

fn arrive_call(called: &[u8], caller: &[u8]) -> Option<Command> {
    Some(Command::ArriveCall {
        caller: device_of(caller)?,
        called: device_of(called)?,
    })
}

fn at_connection(service: Service, call: &[u8], device: &[u8]) -> Option<Command> {
    let call = serial_of(call)?;
    let device = device_of(device)?;
    match service {
        Service::AnswerCall => Some(Command::AnswerCall { call, device }),
        Service::ClearConnection => Some(Command::ClearConnection { call, device }),
        Service::HoldCall => Some(Command::HoldCall { call, device }),
        Service::RetrieveCall => Some(Command::RetrieveCall { call, device }),
        Service::RejectCall => Some(Command::RejectCall { call, device }),
        _ => None,
    }
}

fn to_device(service: Service, call: &[u8], device: &[u8], to: &[u8]) -> Option<Command> {
    let call = serial_of(call)?;
    let device = device_of(device)?;
    let to = device_of(to)?;
    match service {
        Service::DeflectCall => Some(Command::DeflectCall { call, device, to }),
        Service::SingleStepTransfer => Some(Command::SingleStepTransfer { call, device, to }),
        _ => None,
    }
}

fn set_agent_state(agent: &[u8], state: &[u8]) -> Option<Command> {
    let agent = AgentId::read(agent).ok()?;
    match RequestedState::named(from_utf8(state).ok()?)? {
        RequestedState::LoggedOn => None,
        RequestedState::State(state) => Some(Command::SetAgentState {
            agent,
            requested: Requested::State(state),
        }),
    }
}

fn tick(service: Service) -> Option<Command> {
    match service {
        Service::Tick => Some(Command::Tick),
        _ => None,
    }
}

fn requester_of(text: &[u8]) -> Option<Requester> {
    Requester::read(text).ok()
}

fn invoke_of(digits: &[u8]) -> Option<Invoke> {
    Invoke::new(parse_u64(digits).ok()?)
}

// The invoke number, and the command of a service with five members, of which these are the first.
fn of_five(
    service: Service,
    first: &[u8],
    second: &[u8],
    third: &[u8],
) -> Option<(Invoke, Command)> {
    match service {
        Service::SetAgentState => Some((invoke_of(second)?, set_agent_state(first, third)?)),
        Service::ArriveCall => Some((invoke_of(third)?, arrive_call(first, second)?)),
        _ => Some((invoke_of(third)?, at_connection(service, first, second)?)),
    }
}

// What the request may be that the text is of.
fn parts_of(text: &[u8]) -> Option<(Requester, Invoke, Command)> {
    let values = Values::of(text)?;
    match values.list.get(..values.count)? {
        [invoke, requester, service] => {
            let command = tick(service_of(service)?)?;
            Some((requester_of(requester)?, invoke_of(invoke)?, command))
        }
        [first, second, third, requester, service] => {
            let (invoke, command) = of_five(service_of(service)?, first, second, third)?;
            Some((requester_of(requester)?, invoke, command))
        }
        [call, device, invoke, requester, service, to] => {
            let command = to_device(service_of(service)?, call, device, to)?;
            Some((requester_of(requester)?, invoke_of(invoke)?, command))
        }
        _ => None,
    }
}

/// The request that the text may be of.
pub(crate) fn guessed(text: &[u8]) -> Option<Request> {
    let (requester, invoke, command) = parts_of(text)?;
    Some(Request {
        requester,
        invoke,
        command,
    })
}
