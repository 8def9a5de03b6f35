//! Requests in lines, replies in lines: [`lines`] answers each line that it reads over a desk, [`lines_until_failed`]
//! does so until the desk fails, and [`import`] executes the requests of a plan. A [`LinesFault`] says why not all were
//! answered. What else lines may ask is an [`Answering`]; [`answer_lines`] answers such lines. [`laws`] says what
//! requests leave.
//!
//! ```ignore
//! let mut desk = Desk::open(alloc, book)?;
//! lines(alloc, &mut desk, &mut input, &mut output)?;
//! ```
#![tactic(auto)]

mod answer;
mod answering;
mod conversation;
mod fault;
mod importing;
pub mod laws;
mod moment;
mod outbox;
mod partial;
mod session;
mod split;

pub use answering::{Answering, Requests};
pub use fault::LinesFault;
pub use importing::import;
pub use session::{answer_lines, lines, lines_until_failed};
