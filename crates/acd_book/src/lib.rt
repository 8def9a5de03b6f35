//! The book: it keeps a desk's tables, its event reports and the replies that it gave.
//!
//! [`Book`] is what a desk asks of a store, also of one whose calls may stop half-way. [`MemoryBook`]
//! keeps all of it in memory. [`Kept`] is what is kept of an executed request.
//!
//! ```ignore
//! let mut book = MemoryBook::new(alloc, Limits::GREATEST);
//! book.commit_changes(&changes, &events, &kept)?;
//! let again = book.kept(&requester, invoke)?;
//! ```
#![tactic(auto)]

mod book;
mod contents;
mod fault;
mod kept;
mod key;
mod ledger;
mod log;
mod memory;
mod monitor_index;
mod numbers;
mod replies;
mod text;

pub use book::Book;
pub use fault::BookFault;
pub use kept::Kept;
pub use memory::MemoryBook;
pub use monitor_index::MonitorIndex;
pub use text::Text;
