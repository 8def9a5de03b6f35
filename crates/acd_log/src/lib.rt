//! How the log of a file ends, found in its bytes: nothing is opened for it, since an opening empties the log.
//!
//! ```ignore
//! let ending = ending_of(&fs::read(&rt, "desk.db-wal")?);
//! ```
#![tactic(auto)]

mod be32;
mod ending;
mod frames;
mod head;

pub use ending::{Ending, ending_of};
