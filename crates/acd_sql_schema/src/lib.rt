//! The schema of a book, version 2: [`set_up`] makes its eleven tables. [`look_over`] says of a database whether it has these tables,
//! or the nine of version 1, and each value in its range; [`migrate`] makes version 2 of version 1.
#![tactic(auto)]

mod create;
mod fault;
mod inspection;
mod migration;
mod verdict;

pub use create::{has_no_tables, set_up};
pub use fault::{AdoptFault, Found};
pub use inspection::{fault_of, look_over};
pub use migration::migrate;
