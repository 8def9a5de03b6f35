//! The desk of a database or in memory: lines over it, connections, and a standby; and what its book opens as again.
#![tactic(auto)]

mod connection;
mod fault;
pub mod laws;
mod memory;
mod sending;
mod serving;
mod session;
mod standby;

pub use connection::{archive_over, book_over, database_lines, lines_over_connection};
pub use fault::WorkFault;
pub use memory::{lines_over_memory, new_desk};
pub use sending::{send_between, send_number};
pub use serving::{Serving, serve};
pub use session::lines_over_book;
pub use standby::stand_by;
