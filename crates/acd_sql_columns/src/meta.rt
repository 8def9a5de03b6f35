//! The limits and the counters: the one row of their table.

use acd_terms::Limits;

/// The limits and the counters of a book.
#[derive(Clone, Copy)]
pub struct Meta {
    pub limits: Limits,
    pub last_stamp: u64,
    pub last_moment: u32,
    pub last_call: u64,
    pub last_monitor: u64,
    pub last_event: u64,
}
