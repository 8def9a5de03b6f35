//! The question of a GET or HEAD.

ghost use Rattle.std.specs.Prelude.{◌≡◌, ◌-◌, IfOk, length, take, drop, option_map, codes};
ghost use Rattle.acd_http.specs.Lookups.{rest_of, before, is_serial, serial_of, agent_in_path, device_in_path, monitor_in_path, look_up, target_looked, found_or, paged};

use crate::query::after_of;
use crate::refused::{Allow, Part, Refused};
use crate::routes::{Route, Routes};
use crate::target::path_and_query;
use acd_desk::Question;
use acd_io::number_up_to;
use acd_terms::{AgentId, DeviceId, Serial};
use std::alloc::{AllocError, Global};

/// How many digits a call or a monitor has at most.
const SERIAL_DIGITS: usize = 10;

fn rest_of<'p>(path: &'p [u8], front: &[u8]) -> &'p [u8]
    ensures { result.now ≡ rest_of front.now path.now }
{
    &path[front.len().min(path.len())..]
}

fn before<'p>(path: &'p [u8], end: &[u8]) -> &'p [u8]
    ensures { result.now ≡ before end.now path.now }
{
    &path[..path.len().saturating_sub(end.len())]
}

#[tactic(auto, using(std::proofs::lemmas::Bool::Decides::nat_tests))]
fn is_serial(digits: &[u8]) -> bool
    ensures { result ≡ is_serial digits.now }
{
    match digits {
        [] => false,
        [first, ..] => *first != b'0' && digits.len() <= SERIAL_DIGITS,
    }
}

#[tactic(auto, unfolding(crate::specs::Lookups::serial_of))]
fn serial_of(digits: &[u8]) -> Option<u64>
    ensures { result ≡ serial_of digits.now }
{
    if !is_serial(digits) {
        return None;
    }
    match number_up_to(digits) {
        Some(number) => match Serial::new(number) {
            Some(serial) => Some(serial.number()),
            None => None,
        },
        None => None,
    }
}

fn agent_in_path(path: &[u8]) -> Option<AgentId>
    ensures { result ≡ agent_in_path path.now }
{
    AgentId::read(rest_of(path, b"/agents/")).ok()
}

fn device_in_path(path: &[u8], front: &[u8]) -> Option<DeviceId>
    ensures { result ≡ device_in_path front.now path.now }
{
    DeviceId::read(rest_of(path, front)).ok()
}

fn call_in(path: &[u8]) -> Option<u64>
    ensures { result ≡ serial_of (rest_of (codes "/calls/") path.now) }
{
    serial_of(rest_of(path, b"/calls/"))
}

fn monitor_in_path(path: &[u8]) -> Option<u64>
    ensures { result ≡ monitor_in_path path.now }
{
    serial_of(before(rest_of(path, b"/monitors/"), b"/events"))
}

fn found_or(question: Option<Question>) -> Result<Question, Refused>
    ensures { result ≡ found_or question }
{
    match question {
        Some(question) => Ok(question),
        None => Err(Refused::NotFound),
    }
}

fn paged(question: Option<Question>) -> Result<Question, Refused>
    ensures { result ≡ paged question }
{
    match question {
        Some(question) => Ok(question),
        None => Err(Refused::Malformed(Part::After)),
    }
}

// The question of a read. A malformed `after` is answered before an identifier that isn't well formed.
fn look_up(
    alloc: Global,
    route: Option<Route>,
    path: &[u8],
    query: &[u8],
) -> Result<Result<Question, Refused>, AllocError>
    ensures { IfOk result (λ found. found ≡ look_up route path.now query.now) }
{
    match route {
        None => Ok(Err(Refused::NotFound)),
        Some(Route::Services) => Ok(Err(Refused::MethodNotAllowed(Allow::Posts))),
        Some(Route::Agent) => Ok(found_or(agent_in_path(path).map(Question::Agent))),
        Some(Route::Call) => Ok(found_or(call_in(path).map(Question::Call))),
        Some(Route::Device) => Ok(found_or(device_in_path(path, b"/devices/").map(
            Question::Device,
        ))),
        Some(Route::Queue) => Ok(found_or(device_in_path(path, b"/queues/").map(Question::Queue))),
        Some(Route::Report) => Ok(Ok(Question::Report)),
        Some(Route::Snapshot) => Ok(Ok(Question::Snapshot)),
        Some(Route::Events) => Ok(paged(after_of(alloc, query)?.map(Question::Events))),
        Some(Route::History) => Ok(paged(after_of(alloc, query)?.map(Question::History))),
        Some(Route::Requests) => Ok(paged(after_of(alloc, query)?.map(Question::Requests))),
        Some(Route::MonitorEvents) => match after_of(alloc, query)? {
            Some(after) => match monitor_in_path(path) {
                Some(monitor) => Ok(Ok(Question::MonitorEvents(monitor, after))),
                None => Ok(Err(Refused::NotFound)),
            },
            None => Ok(Err(Refused::Malformed(Part::After))),
        },
    }
}

impl Routes {
    /// The question of a GET of the target, or how it is refused.
    pub fn look_up(
        &self,
        alloc: Global,
        target: &[u8],
    ) -> Result<Result<Question, Refused>, AllocError>
        ensures { IfOk result (λ found. found ≡ target_looked target.now) }
    {
        let (path, query) = path_and_query(target);
        look_up(alloc, self.route_of(path), path, query)
    }
}
