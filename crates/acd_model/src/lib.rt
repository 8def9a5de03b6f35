//! The abstract switch: what the desk does, defined once over the rows of a state, apart from the
//! program.
//!
//! The definitions are in `specs`, and `docs/MODEL.md` is the guide to them: the scans of the rows, the moves, the
//! nineteen services, distribution and tick, a step and a run, and the rules that rows keep. The program is proved to
//! do just that.
//!
//! The code here is what the crates above share: a service answers a [`Served`], a refusal or an answer and the
//! [`Moves`] that it makes. [`examples`] are runs that the check computes over the definitions.
#![tactic(auto)]

pub mod examples;
mod moves;

pub use moves::{
    Change, Destination, Done, Ending, Move, Moves, Offer, Release, Served, gives, no_move,
    refuse_if, reported, silent,
};
