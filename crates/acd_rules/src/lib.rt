//! The rules that the rows of a switch keep.
//!
//! [`first_broken`] answers the first rule that rows break. Rows of any origin may be handed in, their
//! lists in any order, and no sum or product wraps.
//!
//! ```ignore
//! if let Some(rule) = first_broken(alloc, &rows) {
//!     return Err(RowFault::Broken(rule));
//! }
//! ```
#![tactic(auto)]

mod calls;
mod counters;
mod first;
mod grouped;
mod lookups;
mod occupied;
mod plan;

pub use first::first_broken;
