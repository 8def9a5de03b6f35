//! The book in SQLite: the limits, the tables, the event reports and the kept replies of a desk in eleven
//! tables of a database.
//!
//! [`SqlBook::create`] makes the tables of a new book, in one transaction. A [`SqlBook`] is a [`Book`](acd_book::Book)
//! that keeps its connection, whether its last call succeeded and how often its store has failed: each read asks the
//! database, but that kept records are read ahead, and the numbers of the events of running monitors are indexed. A
//! commit counts on from the counters of the one before. [`SqlBook::prune`] takes out the oldest kept records and events.
//!
//! Each statement is a function of `acd_sql_statements`, which works inside a transaction and adds no stop; the end
//! of the transaction alone adds the commit.
//!
//! ```ignore
//! let mut book = SqlBook::create(alloc, conn, Limits::GREATEST)?;
//! let events = book.events_after(0, 100)?;
//! let conn = book.into_connection();
//! ```
#![tactic(auto)]

mod adopt;
mod ahead;
mod book;
mod cache;
mod commit;
mod following;
mod index;
pub mod laws;
mod page;
mod prune;
mod ready;
mod rebuild;
mod transition;

pub use acd_sql_columns::Table;
pub use acd_sql_differences::{TableRecord, row_changes};
pub use acd_sql_schema::{AdoptFault, has_no_tables};
pub use book::SqlBook;
