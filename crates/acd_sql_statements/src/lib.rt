//! The tables of a book in SQLite: the statement or the query that works on each.
//!
//! A query of `query` shows the values of the rows of a content, in the order of its key; what they stand for `acd_sql_columns` says.
//! What a database holds that is no book's yet, the queries of `look` and of `tables` tell too.
//!
//! Each function of `put`, of `several` and of `write` works inside a transaction, and adds no stop.
//!
//! ```ignore
//! insert(&mut tx, &station)?;
//! let rows = rows(alloc, &mut conn)?;
//! ```
#![tactic(auto)]

pub mod fitting;
pub mod look;
mod lookups;
mod numbered;
pub mod parts;
pub mod placed;
mod plan;
pub mod put;
pub mod query;
pub mod read;
mod reads;
mod records;
pub mod same;
pub mod select;
pub mod several;
pub mod stored;
pub mod tables;
pub mod write;

pub use lookups::{events_after, events_at, events_watched, kept_under, monitor_at, records_after};
pub use numbered::events_numbered;
pub use reads::{read_meta, rows};
