//! The questions to a desk.

use acd_terms::{AgentId, DeviceId};

/// A question to a desk.
#[derive(Clone, Copy, Debug, PartialEq, Eq)]
pub enum Question {
    /// An agent.
    Agent(AgentId),
    /// A live call, by its number.
    Call(u64),
    /// A planned device.
    Device(DeviceId),
    /// The queue of a group.
    Queue(DeviceId),
    /// The events with a number above this.
    Events(u64),
    /// The same, more of them at once.
    History(u64),
    /// The events of a running monitor, by its number, with a number above the second.
    MonitorEvents(u64, u64),
    /// The executed requests with a stamp above this.
    Requests(u64),
    /// The queue report.
    Report,
    /// All records.
    Snapshot,
}

impl Question {
    ghost use Rattle.std.specs.Prelude.{◌≡◌};
    ghost use Rattle.acd_desk.specs.Reads.ReadAnswers.{is_plain};

    /// Whether the answer is plain text, as a report is, and not JSON.
    pub fn is_plain(&self) -> bool
        ensures { result ≡ is_plain self.now }
    {
        matches!(self, Question::Report)
    }
}
