//! One executed request on the switch: the service or tick, then distribution.
//!
//! [`Switch`] holds the state; [`Switch::step`] executes a request and answers its outcome and its events, and
//! [`Switch::step_with_changes`] answers the changes of records too ([`Executed`]). [`Switch::from_rows`] makes a
//! switch of rows of any origin, and refuses those that break a rule ([`RowFault`]).
//!
//! ```ignore
//! let mut switch = Switch::new(alloc, Limits::GREATEST);
//! let (outcome, events) = switch.step(moment, &command)?;
//! ```
#![tactic(auto)]

mod distribution;
mod figures;
mod journal;
mod row_fault;
mod switch;
mod tick;

pub use row_fault::RowFault;
pub use switch::{Executed, Switch};
