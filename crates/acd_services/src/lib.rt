//! The services of the switch on its tables.
//!
//! [`serve`] runs one service. Each service, in the file of its name, is a decision over the tables
//! that changes nothing: a refusal, or an answer and the moves that it makes ([`acd_model::Served`]).
//! [`decide`] gives it. The module `make` alone writes tables and reports events.
//!
//! ```ignore
//! let outcome = serve(&mut tables, at, &command, &mut events)?;
//! ```
#![tactic(auto)]

mod add_agent;
mod add_group;
mod add_station;
mod agent_moves;
mod answer_call;
mod arrive_call;
mod call_moves;
mod change_agent;
mod change_group;
mod clear_connection;
mod deflect_call;
mod destinations;
mod hold_call;
mod make;
mod make_call;
mod monitor_start;
mod monitor_stop;
mod phone_off_hook;
mod reject_call;
mod releasing;
mod retrieve_call;
mod returning;
mod serving;
mod set_agent_state;
mod set_group_priority;
mod single_step_transfer;

pub use agent_moves::go_from;
pub use call_moves::{divert, offer};
pub use make::change;
pub use returning::{return_moves, return_to};
pub use serving::{decide, serve};
