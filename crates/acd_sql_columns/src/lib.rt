//! A table of the book: its columns and the texts of its statements, the row of a record, and which record a row
//! represents where each value is in its range.
//!
//! ```ignore
//! let station = decode::station_in(&row);
//! ```
#![tactic(auto)]

pub mod bind;
pub mod codes;
mod columns;
pub mod decode;
pub mod encode;
pub mod good;
mod meta;
mod relations;
mod shape;
mod tables;
pub mod texts;
pub mod values;

pub use meta::Meta;
pub use relations::{AgentRow, GroupPriority, GroupRow};
pub use tables::{Log, Table, Version};
