//! The desk: it executes each request once, keeps its reply, and gives a repeat the kept one.
//!
//! [`Desk`] works over any [`acd_book::Book`]. `specs/AbstractDesk` and `specs/Replies` say what it answers and leaves: the
//! abstract switch run once over each request's first arrival. [`Taken`] is an answer, an [`AnswerText`] says it in
//! text, and [`OpenFault`] says why a book makes no desk. `specs/ReadAnswers` says what it answers to a [`Question`], or it
//! answers a [`DeskFault`]. An [`Audit`] says whether all that its book holds is what the kept requests give, run
//! again, or where it first differs (`specs/Audit`); an [`ArchiveAudit`] says so of a book beside the archive that it
//! continues (`specs/AuditWith`). A [`Progress`] is told how far an audit has come.
//!
//! ```ignore
//! let mut desk = Desk::open(alloc, MemoryBook::new(alloc, Limits::GREATEST))?;
//! let answer = desk.take(moment, &request);
//! let queue = desk.queue(group)?;
//! let audit = desk.audit(&mut ())?;
//! let book = desk.close();
//! ```
#![tactic(auto)]

mod answer_text;
mod audit;
mod clock;
mod desk;
mod executing;
mod export;
mod fault;
mod group_states;
mod newer;
mod open_fault;
mod overlap;
mod page;
mod pair;
mod placed;
mod progress;
mod question;
mod reads;
mod replay;
mod request_pages;
mod requests;
mod same;
mod seen_keys;
mod session;
mod table_reads;
mod taken;
mod working;

pub use answer_text::AnswerText;
pub use audit::{ArchiveAudit, Audit, AuditFault};
pub use clock::clock_tick;
pub use desk::Desk;
pub use fault::DeskFault;
pub use open_fault::OpenFault;
pub use progress::Progress;
pub use question::Question;
pub use requests::is_same;
pub use session::SessionFault;
pub use taken::Taken;
