//! The program of the desk, over three streams: it does what a command line asks for, over a desk in memory or in a
//! file.
//!
//! ```ignore
//! let status = program(&rt, &["acd", "report", "--file", "desk.db"], &mut reader, &mut writer, &mut errors);
//! ```
#![tactic(auto)]

mod auditing;
mod cut;
mod desk;
mod export;
mod fault;
pub mod laws;
mod outcome;
mod printing;
mod progress;
mod pruning;
mod reason;
mod reasons;
mod running;
mod status;
mod with_archive;

pub use running::program;
