//! The first broken rule.

ghost use Rattle.std.specs.Prelude.{◌≡◌, true};
ghost use Rattle.acd_model.specs.Rules.First.{first_broken};
ghost use Rattle.acd_model.specs.Rules.Plan.{keeps_limits, keeps_order};

use crate::calls::{keeps_call, keeps_connection, keeps_live, keeps_parties};
use crate::counters::keeps_counters;
use crate::lookups::Lookups;
use crate::occupied::{keeps_balance, keeps_occupied, keeps_offer};
use crate::plan::{keeps_agent, keeps_device, keeps_limits, keeps_monitor, keeps_order};
use acd_terms::{Rows, Rule};
use std::alloc::Global;

/// The first rule that the rows break, in the order of [`Rule`]. It looks at all records once for each test, where
/// there is memory for some copies of them, and else once for each record.
#[tactic(auto, unfolding(acd_model::specs::Rules::First::first_broken))]
pub fn first_broken(alloc: Global, rows: &Rows) -> Option<Rule>
    ensures { result ≡ first_broken rows.now }
{
    if !keeps_limits(rows) {
        Some(Rule::Limits)
    } else if !keeps_order(rows) {
        Some(Rule::Order)
    } else {
        first_broken_in_order(&Lookups::new(alloc, rows))
    }
}

// The first broken rule of rows that keep the limits and the order.
#[tactic(auto, unfolding(acd_model::specs::Rules::First::first_broken))]
fn first_broken_in_order(lookups: &Lookups) -> Option<Rule>
    ensures { let s = lookups.now.rows.now in
        keeps_limits s ≡ true → keeps_order s ≡ true → result ≡ first_broken s }
{
    if !keeps_device(lookups) {
        Some(Rule::Device)
    } else if !keeps_agent(lookups) {
        Some(Rule::Agent)
    } else if !keeps_call(lookups) {
        Some(Rule::Call)
    } else if !keeps_connection(lookups) {
        Some(Rule::Connection)
    } else if !keeps_parties(lookups) {
        Some(Rule::Parties)
    } else if !keeps_live(lookups) {
        Some(Rule::Live)
    } else if !keeps_occupied(lookups) {
        Some(Rule::Occupied)
    } else if !keeps_counters(lookups) {
        Some(Rule::Counters)
    } else if !keeps_offer(lookups) {
        Some(Rule::Offer)
    } else if !keeps_monitor(lookups) {
        Some(Rule::Monitor)
    } else if !keeps_balance(lookups) {
        Some(Rule::Balance)
    } else {
        None
    }
}
