//! The tables of the switch: its records by key, the look-ups that its services use, and the writes.
//!
//! [`Tables`] is seen as [`acd_terms::Rows`], so each look-up answers a scan of the state,
//! and each write changes the one record that it names. Look-ups take no memory, but for the copies of
//! what tick may end ([`Tables::ringing`] and [`Tables::working`]). [`Records`] are the tables alone,
//! without the indexes that spare a look-up its way through them.
//!
//! ```ignore
//! let mut tables = Tables::new(alloc, Limits::GREATEST);
//! tables.put_group(group)?;
//! let queue = tables.queue_of(group.device);
//! ```
#![tactic(auto)]

mod changes;
mod connections;
mod filling;
mod indexes;
mod indexing;
mod kind;
mod lines;
mod records;
mod scans;
mod sets;
mod single_group;
mod swaps;
mod table;
mod tables;
mod uses;
mod writes;

pub use kind::DeviceKind;
pub use records::Records;
pub use tables::Tables;
