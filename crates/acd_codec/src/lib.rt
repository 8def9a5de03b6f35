//! JSON in and out: requests are read and written; replies, event reports and what is read of a desk are written.
//!
//! [`RequestReader`] reads requests, and [`read_request`] one alone, or says what is wrong: a [`ReadFault`], with the
//! first faulty [`Member`]. [`request_text`] writes the one text of a request, and that text reads as it
//! ([`reads_back`], [`same_text`]). [`reply_text`] is the reply to an executed request; [`Rejected`] says why one is not
//! executed, and a [`FixedAnswer`] names no request. [`event_text`] and [`page_text`] write event reports, and
//! [`agent_text`], [`call_text`], [`device_text`] (of a [`PlannedDevice`]) and [`queue_text`] what is read of a desk;
//! [`snapshot_text`] writes all of it, as a [`Snapshot`] has it, and [`quoted`] a text that is no JSON. All that is
//! written is compact JSON, the members of each object in the order of their names.
//!
//! ```ignore
//! let request = read_request(alloc, bytes)?;
//! let kept = request_text(alloc, &request)?;
//! let reply = reply_text(alloc, &request.requester, request.invoke, outcome)?;
//! ```
#![tactic(auto)]

mod document;
mod events;
mod fault;
mod guess;
mod laws;
mod member;
mod read_texts;
mod reading;
mod replies;
mod requests;
mod service;
mod snapshots;
mod writing;

pub use events::{event_text, page_text};
pub use fault::{FixedAnswer, ReadFault};
pub use laws::{old_reads_the_same, reads_back, request_formed, same_text};
pub use member::{MALFORMED_STATUS, Member};
pub use read_texts::{
    PlannedDevice, PlannedStation, agent_text, call_text, device_text, queue_text, quoted,
};
pub use reading::{RequestReader, read_request};
pub use replies::{Rejected, outcome_status, rejected_text, reply_text};
pub use requests::request_text;
pub use snapshots::{LiveCall, Snapshot, snapshot_text};
