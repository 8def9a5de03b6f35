//! The terms of the desk: identifiers, records, commands, answers and event reports.
//!
//! A command names devices and agents by [`DeviceId`] and [`AgentId`], which hold only well formed numbers; [`Command`]
//! has one variant a service. A service answers an [`Outcome`], and reports a [`Report`]. [`Rows`] is the whole state
//! of a switch as lists. `acd_model` defines over these what a switch does.
//!
//! ```ignore
//! let caller = DeviceId::read(b"0301234")?;
//! let called = DeviceId::read(b"7100")?;
//! let command = Command::ArriveCall { caller, called };
//! ```
#![tactic(auto)]

mod answer;
mod command;
mod device_array;
mod event;
mod groups;
mod id;
mod keyed;
mod listed;
mod name;
mod number;
mod record;
mod rows;
mod short_text;
mod state;

pub use answer::{Answer, Outcome, Refusal};
pub use command::{Arrival, Command, Request, Requested, Turn};
pub use device_array::DeviceArray;
pub use event::{Cause, Columns, Event, EventKind, Report, Waited};
pub use groups::{Groups, SomeGroups};
pub use id::{AgentId, DeviceId, IdFault};
pub use keyed::{Keyed, ascends, find};
pub use listed::Listed;
pub use name::{Name, NameFault, Requester};
pub use number::{Between, Invoke, Priority, Seconds, Serial};
pub use record::{
    AgentRecord, CallRecord, ConnectionRecord, Figures, GroupRecord, MonitorRecord, StationRecord,
};
pub use rows::{Limits, Rows, Rule};
pub use short_text::ShortText;
pub use state::{AgentState, ConnectionState, Pending};
