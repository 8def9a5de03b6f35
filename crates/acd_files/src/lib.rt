//! The files of a desk before the store has them, and as it opens and closes them; and the file of a plan.
#![tactic(auto)]

mod fault;
mod file;
mod logs;
mod lone_log;
mod looking;
mod paging;
mod plan;
mod plan_lines;
mod rights;
mod telling;
mod unconnected;

pub use fault::{LookFault, OpeningFault, PathFault};
pub use file::{close_connection, connect, connect_archive, holds_log, log_ending, log_path};
pub use looking::{Looks, ReadOnly};
pub use plan::{bytes_from, read_plan};
pub use plan_lines::{first_line, form_of, line_of};
pub use rights::{is_forbidden, is_read_only};
