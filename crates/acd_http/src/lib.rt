//! One HTTP exchange over a desk: one request is read from a connection, and one reply is written. And lines that may read: beside
//! requests, which [`acd_lines`] answers, a line may ask what a GET asks ([`lines_with_reads`]). [`serve`] answers the
//! connections that come in at a [`Door`], one after the other, and has the desk tick between them, where that is asked for.
//!
//! `specs/WebRequests` says what bytes ask for, and `specs/Exchange` what is written for it; [`laws`] say that bytes ask
//! one thing, and by a beginning of theirs alone; `specs/Turns` says what a service leaves. Clients ask for services by POST to `/csta`; they read the desk by
//! GET and HEAD.
//!
//! ```ignore
//! let routes = Routes::new(alloc)?;
//! exchange(alloc, &routes, &mut desk, moment, &mut reader, &mut writer)?;
//! ```
#![tactic(auto)]

mod answer;
mod answering;
mod door;
mod exchanging;
mod fields;
mod head;
mod head_request;
mod head_text;
mod input;
pub mod laws;
mod listening;
mod lookup;
mod method;
mod moment;
mod outcome_lines;
mod patient;
mod peer;
mod query;
mod reading_lines;
mod reads;
mod receive;
mod refused;
mod reply;
mod routes;
mod serving;
mod socket_file;
mod target;
mod watch;
mod web_request;

pub use door::{Accept, Door, Polled};
pub use exchanging::{ExchangeFault, exchange};
pub use listening::{serve_on, serve_until_failed};
pub use peer::Peer;
pub use reading_lines::{RequestsAndReads, lines_with_reads};
pub use refused::{Allow, Part, Refused};
pub use routes::Routes;
pub use serving::{ServeFault, Span, serve};
pub use web_request::WebRequest;
