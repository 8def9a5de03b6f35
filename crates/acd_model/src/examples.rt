//! Worked examples of the abstract switch, computed by the check: each clause is one, what the definitions
//! answer and report from the plan on, and each function is a family, a file of `specs/Examples`.

ghost use Rattle.acd_model.specs.Examples.Words.{NumbersOfDigits};
ghost use Rattle.acd_model.specs.Examples.Plan.{RecordsOfTheEmptyState, Monitors};
ghost use Rattle.acd_model.specs.Examples.Queue.{CallWaits, OfferedToTheReadyAgent, AnsweredCall, LongestReadyFirst, WrapUpAndTick, TwoCallsAnswered, NoAnswerReturnsToItsPlace, MomentNeverGoesBack, RefusalTakesAStamp, CallerNumberTaken, CallerNumberShared, LeastPlaceFirst, AbandonedInQueue};
ghost use Rattle.acd_model.specs.Examples.Waiting.{OffersGoBack, Ticks, Never, WhoIsReadyLongest, TwoGroupsAtOnce};
ghost use Rattle.acd_model.specs.Examples.Agents.{PendingLogOff, PresentStatePending, HoldAndPending, TransferToStation, TransferToGroup, DeflectedToStation, SecondCallWhileHolding};
ghost use Rattle.acd_model.specs.Examples.Stations.{BusyStationFails, PrivateCallThenDistribution, LoggedOffWithAPrivateCall, HeldPrivateCall, CallToABusyAgentStation, PrivateCalls};
ghost use Rattle.acd_model.specs.Examples.CallsHandedOn.{DeflectedToAnotherQueue, DeflectedFromQueueToStationAndBack, DeflectedToItsOwnGroup, DeflectedWithAStatePending, TransferredWhileHeld, TwoAgentsReleased, TransferredBack};
ghost use Rattle.acd_model.specs.Examples.Priorities.{HigherPriorityFirst, EqualPriorities, PriorityChanged};
ghost use Rattle.acd_model.specs.Examples.Releases.{ReleasedAfterAnAnswer, ReleasedUnanswered, ReleasedByNoAnswer};
ghost use Rattle.acd_model.specs.Examples.Refusals.{RefusalsOfPlanAndCalls, RefusalsOfAnAnsweredCall, RefusalsOfAHeldCall, RefusalsOfAnOfferedCall, RefusalsOfAnUnansweredCall, RefusalsOfAgents};
ghost use Rattle.acd_model.specs.Examples.Rejections.{RejectedToTheSecondAgent, RejectedByOneAfterTheOther, RejectedWithNobodyReady, RejectedAfterAnOlderCall, ReleasedByARejection, RejectedInAFurtherGroup, RejectedWithoutARingTime, RejectedAndGivenUp, RejectionAndTick, RefusalsOfRejections};
ghost use Rattle.acd_model.specs.Examples.Corrections.{RingShortened, RingProlonged, WrapShortened, WrapProlonged, WrapOfTheLeastGroup, ChangedGroup, ChangedAgent, ChangedAgentKeepsTheTurn, ChangedToTheSame, NamesOfOneAndForty, RefusalsOfCorrections};
ghost use Rattle.acd_model.specs.Examples.Faults.{DigitsThatWereRead, FaultsOfDevices, FaultsOfAgents, FaultsOfNames, FaultsOfRequesters, RowsThatBreakARule};

/// Numbers of identifiers, records as they are added, and monitors.
pub fn plan()
    ensures numbers_of_digits { NumbersOfDigits }
    ensures records_of_the_empty_state { RecordsOfTheEmptyState }
    ensures monitors { Monitors }
{}

/// Calls that wait, are offered, answered, abandoned and given back.
pub fn queue()
    ensures call_waits { CallWaits }
    ensures offered_to_the_ready_agent { OfferedToTheReadyAgent }
    ensures answered_call { AnsweredCall }
    ensures longest_ready_first { LongestReadyFirst }
    ensures wrap_up_and_tick { WrapUpAndTick }
    ensures two_calls_answered { TwoCallsAnswered }
    ensures no_answer_returns_to_its_place { NoAnswerReturnsToItsPlace }
    ensures moment_never_goes_back { MomentNeverGoesBack }
    ensures refusal_takes_a_stamp { RefusalTakesAStamp }
    ensures caller_number_taken { CallerNumberTaken }
    ensures caller_number_shared { CallerNumberShared }
    ensures least_place_first { LeastPlaceFirst }
    ensures abandoned_in_queue { AbandonedInQueue }
{}

/// Waiting for time, and who is ready longest.
pub fn waiting()
    ensures offers_go_back { OffersGoBack }
    ensures ticks { Ticks }
    ensures never { Never }
    ensures who_is_ready_longest { WhoIsReadyLongest }
    ensures two_groups_at_once { TwoGroupsAtOnce }
{}

/// The pending state of a busy agent, holding, and giving a call away.
pub fn agents()
    ensures pending_log_off { PendingLogOff }
    ensures present_state_pending { PresentStatePending }
    ensures hold_and_pending { HoldAndPending }
    ensures transfer_to_station { TransferToStation }
    ensures transfer_to_group { TransferToGroup }
    ensures deflected_to_station { DeflectedToStation }
    ensures second_call_while_holding { SecondCallWhileHolding }
{}

/// Busy stations and private calls.
pub fn stations()
    ensures busy_station_fails { BusyStationFails }
    ensures private_call_then_distribution { PrivateCallThenDistribution }
    ensures logged_off_with_a_private_call { LoggedOffWithAPrivateCall }
    ensures held_private_call { HeldPrivateCall }
    ensures call_to_a_busy_agent_station { CallToABusyAgentStation }
    ensures private_calls { PrivateCalls }
{}

/// Calls that are handed on, from a queue, from an agent and between stations.
pub fn handed_on()
    ensures deflected_to_another_queue { DeflectedToAnotherQueue }
    ensures deflected_from_queue_to_station_and_back { DeflectedFromQueueToStationAndBack }
    ensures deflected_to_its_own_group { DeflectedToItsOwnGroup }
    ensures deflected_with_a_state_pending { DeflectedWithAStatePending }
    ensures transferred_while_held { TransferredWhileHeld }
    ensures two_agents_released { TwoAgentsReleased }
    ensures transferred_back { TransferredBack }
{}

/// Agents of several groups, and groups with priority.
pub fn priorities()
    ensures higher_priority_first { HigherPriorityFirst }
    ensures equal_priorities { EqualPriorities }
    ensures priority_changed { PriorityChanged }
{}

/// Each cell of the table of release.
pub fn releases()
    ensures released_after_an_answer { ReleasedAfterAnAnswer }
    ensures released_unanswered { ReleasedUnanswered }
    ensures released_by_no_answer { ReleasedByNoAnswer }
{}

/// Each refusal of each service, in the order in which they are tested.
pub fn refusals()
    ensures refusals_of_plan_and_calls { RefusalsOfPlanAndCalls }
    ensures refusals_of_an_answered_call { RefusalsOfAnAnsweredCall }
    ensures refusals_of_a_held_call { RefusalsOfAHeldCall }
    ensures refusals_of_an_offered_call { RefusalsOfAnOfferedCall }
    ensures refusals_of_an_unanswered_call { RefusalsOfAnUnansweredCall }
    ensures refusals_of_agents { RefusalsOfAgents }
{}

/// Calls that ring at an agent and are rejected.
pub fn rejections()
    ensures rejected_to_the_second_agent { RejectedToTheSecondAgent }
    ensures rejected_by_one_after_the_other { RejectedByOneAfterTheOther }
    ensures rejected_with_nobody_ready { RejectedWithNobodyReady }
    ensures rejected_after_an_older_call { RejectedAfterAnOlderCall }
    ensures released_by_a_rejection { ReleasedByARejection }
    ensures rejected_in_a_further_group { RejectedInAFurtherGroup }
    ensures rejected_without_a_ring_time { RejectedWithoutARingTime }
    ensures rejected_and_given_up { RejectedAndGivenUp }
    ensures rejection_and_tick { RejectionAndTick }
    ensures refusals_of_rejections { RefusalsOfRejections }
{}

/// Groups and agents that are corrected.
pub fn corrections()
    ensures ring_shortened { RingShortened }
    ensures ring_prolonged { RingProlonged }
    ensures wrap_shortened { WrapShortened }
    ensures wrap_prolonged { WrapProlonged }
    ensures wrap_of_the_least_group { WrapOfTheLeastGroup }
    ensures changed_group { ChangedGroup }
    ensures changed_agent { ChangedAgent }
    ensures changed_agent_keeps_the_turn { ChangedAgentKeepsTheTurn }
    ensures changed_to_the_same { ChangedToTheSame }
    ensures names_of_one_and_forty { NamesOfOneAndForty }
    ensures refusals_of_corrections { RefusalsOfCorrections }
{}

/// What is an identifier, a name and a requester, the first fault of what is none, and the first rule that rows break.
pub fn faults()
    ensures digits_that_were_read { DigitsThatWereRead }
    ensures faults_of_devices { FaultsOfDevices }
    ensures faults_of_agents { FaultsOfAgents }
    ensures faults_of_names { FaultsOfNames }
    ensures faults_of_requesters { FaultsOfRequesters }
    ensures rows_that_break_a_rule { RowsThatBreakARule }
{}
