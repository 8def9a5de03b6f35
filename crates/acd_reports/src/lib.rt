//! The queue report, plans and the export of events.
//!
//! [`queue_report`] writes a line for each group, at a moment, and [`groups_report`] the same of groups that are handed
//! in. [`plan_requests`] reads a plan in CSV: the requests that add its groups, stations and agents, or a
//! [`PlanFault`]. [`events_csv`] writes events as CSV; a long export is written page by page, [`export_header`] first
//! and then an [`events_page`] for some events at a time.
//!
//! ```ignore
//! let requests = plan_requests(alloc, b"kind,number,name,ring,wrap\ngroup,100,Billing,20,30\n")?;
//! let report = queue_report(alloc, &rows, 40)?;
//! let export = events_csv(alloc, &events)?;
//! ```
#![tactic(auto)]

mod columns;
mod export;
mod fault;
mod plan;
mod queues;
mod rows;

pub use export::{events_csv, events_page, export_header, pages_join};
pub use fault::{PlanFault, PlanMember};
pub use plan::plan_requests;
pub use queues::{GroupState, groups_report, queue_report};
