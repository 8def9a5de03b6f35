//! The parts that lines and HTTP share, over any reader and any writer: bytes are sent whole ([`send`]), a call that
//! was interrupted is made again ([`retried`]) up to a number of calls ([`most_calls`]), and digits are read as a
//! number ([`number_up_to`]). And the input of a standby: its lines come up to the order to serve, which is the first
//! line that is exactly `serve` ([`UntilOrder`]).
//!
//! ```ignore
//! let mut lines = UntilOrder::new(Pending::new(alloc)?, stdin);
//! while lines.read(&mut chunk)? > 0 {}
//! ```
#![tactic(auto)]

mod calls;
mod digits;
pub mod laws;
mod order;
mod passing;
mod pending;
mod retry;
mod sending;
mod until_order;

pub use calls::most_calls;
pub use digits::number_up_to;
pub use pending::Pending;
pub use retry::retried;
pub use sending::{Stopped, send};
pub use until_order::UntilOrder;
