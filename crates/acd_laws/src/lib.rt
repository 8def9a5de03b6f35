//! Laws over the abstract switch, after every step, and after every run from the empty state.
//!
//! Each law is the contract of a function with an empty body. The laws are stated in `specs/`, over the
//! definitions of `acd_terms` that the switch itself is proved by. A law of a step is one of rows that break no rule,
//! and after the step no rule is broken (`step_keeps_rules`).
#![tactic(auto)]

ghost use Rattle.acd_model.specs.Offers.{FindsFirstWaiting, FindsFirstEligible, FindsTheOffer};
ghost use Rattle.acd_laws.specs.RefusalLaws.{RefusalChangesNothing};
ghost use Rattle.acd_laws.specs.CorrectionLaws.{ChangesChangeOnly};
ghost use Rattle.acd_laws.specs.RejectLaws.{RejectsAsATick};
ghost use Rattle.acd_laws.specs.FigureLaws.{StepKeepsFigures, RunKeepsFigures, StepAddsFigures};
ghost use Rattle.acd_laws.specs.WatchedLaws.{StepKeepsWatched, RunIsWatched, RunReportsNoMore};
ghost use Rattle.acd_laws.specs.BalanceLaws.{StepBalances, RunIsBalanced};
ghost use Rattle.acd_laws.specs.OfferLaws.{FindsTheDistribution, RulesAreKeptWithin, StepLeavesNoOffer, RunLeavesNoOffer};
ghost use Rattle.acd_laws.specs.PlacedLaws.{StepNamesNoLaterCall, RunNamesNoLaterCall, StepKeepsClearings, StepPlaces, StepKeepsPlaces, RunIsPlaced, PlacesExclude};
ghost use Rattle.acd_laws.specs.RuleLaws.{StepKeepsRules, RunKeepsRules, RulesBound, RulesLeaveRoom};
ghost use Rattle.acd_laws.specs.ChangeLaws.{StepMakesItsChanges};
ghost use Rattle.acd_laws.specs.AllLaws.{StepKeepsLaws, RunKeepsLaws};
ghost use Rattle.acd_laws.specs.NameLaws.{NamesAreInert, RunIgnoresNames};
ghost use Rattle.acd_laws.specs.OneOfferLaws.{RulesGiveOneOffer, StepKeepsOneOffer, RunHasOneOffer};
ghost use Rattle.acd_laws.specs.StarvationLaws.{LowPriorityMayStarve};
ghost use Rattle.acd_laws.specs.TimeLaws.{TickBoundsAnswers, RunBoundsAnswers, TickLeavesNone};

/// The call that is found to wait first in a group has the least place there, and one is found wherever one waits.
pub fn finds_the_first_waiting()
    ensures { FindsFirstWaiting }
{}

/// The agent that is found to be ready longest in a group has the least stamp of those eligible there, and of equal
/// stamps the least number; one is found wherever one is eligible.
pub fn finds_the_first_eligible()
    ensures { FindsFirstEligible }
{}

/// The offer that is found is the one that the relation allows, and one is found wherever there is one.
pub fn finds_the_offer()
    ensures { FindsTheOffer }
{}

/// The moves of a distribution are the offers that the relation allows, each in the state that the ones before it
/// leave, until there is none.
pub fn finds_the_distribution()
    ensures { FindsTheDistribution }
{}

/// Where rows break no rule, and the figures of the groups are those of all events before a step, they are those of all events after it.
pub fn step_keeps_figures()
    ensures { StepKeepsFigures }
{}

/// After every run the figures of each group are those that all its events count.
pub fn run_keeps_figures()
    ensures { RunKeepsFigures }
{}

/// Where rows break no rule, a step changes of a planned group the figures, by what its events count; `setGroupPriority` of it the
/// priority too, and `changeGroup` of it name, ring and wrap.
pub fn step_adds_figures()
    ensures { StepAddsFigures }
{}

/// A refused request takes a stamp and a moment, and changes nothing else.
pub fn refusal_changes_nothing()
    ensures { RefusalChangesNothing }
{}

/// Where rows break no rule, `changeGroup` changes name, ring and wrap of one group, `changeAgent` the name of one agent, and nothing
/// else but the last stamp and moment.
pub fn changes_change_only()
    ensures { ChangesChangeOnly }
{}

/// Where rows break no rule, one offer is overdue and no after-call work is over, `rejectCall` of that offer is what a tick does.
pub fn rejects_as_a_tick()
    ensures { RejectsAsATick }
{}

/// What the reports give a watcher of rows that break no rule, and no more, they give of the next state with the
/// reports of the step.
pub fn step_keeps_watched()
    ensures { StepKeepsWatched }
{}

/// After every run the reports alone give the connections at planned devices, the agents' states and the order of each
/// queue, in which each call that waits or rings has its entry.
pub fn run_is_watched()
    ensures { RunIsWatched }
{}

/// After every run the reports give nothing of external callers, and no entry is later than the last event.
pub fn run_reports_no_more()
    ensures { RunReportsNoMore }
{}

/// Where rows break no rule, and each group's figures add up, they add up after the step.
pub fn step_balances()
    ensures { StepBalances }
{}

/// After every run what entered a group waits, rings, was answered, was abandoned or was moved.
pub fn run_is_balanced()
    ensures { RunIsBalanced }
{}

/// After a step no group has both a waiting call and an eligible agent.
pub fn step_leaves_no_offer()
    ensures { StepLeavesNoOffer }
{}

/// After every run no group has both a waiting call and an eligible agent.
pub fn run_leaves_no_offer()
    ensures { RunLeavesNoOffer }
{}

/// Where rows break no rule, a station has one distributed connection at most, with an agent logged on there who
/// is ready or busy with it, and no other agent is busy.
pub fn rules_give_one_offer()
    ensures { RulesGiveOneOffer }
{}

/// Rows that break no rule go on to ones in which each distributed connection is the one at its station, with its
/// agent, and no other agent is busy.
pub fn step_keeps_one_offer()
    ensures { StepKeepsOneOffer }
{}

/// After every run each distributed connection is the one at its station, with its agent, and no other agent is busy.
pub fn run_has_one_offer()
    ensures { RunHasOneOffer }
{}

/// Where rows break no rule, and no event up to them names a call above the last, none does after a step.
pub fn step_names_no_later_call()
    ensures { StepNamesNoLaterCall }
{}

/// After every run no event names a call above the last.
pub fn run_names_no_later_call()
    ensures { RunNamesNoLaterCall }
{}

/// Where rows break no rule, and each call up to the last that isn't live was cleared once and any other never, so it is after a step.
pub fn step_keeps_clearings()
    ensures { StepKeepsClearings }
{}

/// From such a state each call after a step is cleared, waits in one queue, or is at devices.
pub fn step_places()
    ensures { StepPlaces }
{}

/// Where each call up to the last is cleared, waits in one queue, or is at devices, and no event names a later call, so it is after a step.
pub fn step_keeps_places()
    ensures { StepKeepsPlaces }
{}

/// After every run each call up to the last is cleared, waits in one queue, or is at devices.
pub fn run_is_placed()
    ensures { RunIsPlaced }
{}

/// A call is in one place at most: cleared, waiting in a queue, or at devices.
pub fn places_exclude()
    ensures { PlacesExclude }
{}

/// Where rows break no rule, those rules that hold within a step too hold where it distributes: after the moves of its service.
pub fn rules_are_kept_within()
    ensures { RulesAreKeptWithin }
{}

/// Rows that break no rule break none after a step, while a request more is allowed.
pub fn step_keeps_rules()
    ensures { StepKeepsRules }
{}

/// No run of at most as many requests as are allowed breaks a rule.
pub fn run_keeps_rules()
    ensures { RunKeepsRules }
{}

/// Rows that break no rule have their counters and figures within bounds.
pub fn rules_bound()
    ensures { RulesBound }
{}

/// Where moments are of 32 bits, the figures of rows that break no rule are below 2 to the 63.
pub fn rules_leave_room()
    ensures { RulesLeaveRoom }
{}

/// The changes of a step make of rows that break no rule, with the counters of the request and its events, the rows
/// after it.
pub fn step_makes_its_changes()
    ensures { StepMakesItsChanges }
{}

/// All laws of a state and of the events up to it hold of the next state with the events of the step, while a request more is allowed.
pub fn step_keeps_laws()
    ensures { StepKeepsLaws }
{}

/// All laws hold of every run of at most as many requests as are allowed.
pub fn run_keeps_laws()
    ensures { RunKeepsLaws }
{}

/// Lists of commands at moments that differ in names alone, run from rows that differ in names alone, have the same outcomes and events, and
/// leave rows that differ in names alone.
pub fn names_are_inert()
    ensures { NamesAreInert }
{}

/// So it is of runs from the empty state.
pub fn run_ignores_names()
    ensures { RunIgnoresNames }
{}

/// After a tick of rows that break no rule each offer is younger than the ring of its group at that tick, and the time
/// since it; so is after-call work, by the wrap of the agent's least group. A time of 0 means never.
pub fn tick_bounds_answers()
    ensures { TickBoundsAnswers }
{}

/// So it is in every run, after each of its ticks, at each state from there on.
pub fn run_bounds_answers()
    ensures { RunBoundsAnswers }
{}

/// For each number of rounds there is a run in which a call of a group of low priority waits before and after each
/// request, while an agent of both groups answers a call of the other in each round.
pub fn low_priority_may_starve()
    ensures { LowPriorityMayStarve }
{}

/// After a tick nothing is due: at the moment at which it was executed no offer has rung its group's ring, and no
/// after-call work has lasted its group's wrap.
pub fn tick_leaves_none()
    ensures { TickLeavesNone }
{}
