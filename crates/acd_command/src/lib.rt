//! The command line of the program: what the words of a command ask for.
#![tactic(auto)]

mod asked;
mod task;

pub use asked::{Address, Printout, Retention, Task, Work};
pub use task::parse;
