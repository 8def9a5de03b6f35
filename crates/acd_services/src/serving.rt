//! One service on the tables.

ghost use Rattle.std.specs.Prelude.{◌≡◌, ◌<◌, ◌^◌, ◌-◌, IfOk, OnOk};
ghost use Rattle.acd_model.specs.ServiceAnswers.{outcome_of};
ghost use Rattle.acd_model.specs.Services.Serve.{serve};
ghost use Rattle.acd_services.specs.MovesOnTables.{AreMade, moves_for};
ghost use Rattle.acd_services.specs.NoTick.{IsNoTick};

use crate::add_agent::add_agent;
use crate::add_group::add_group;
use crate::add_station::add_station;
use crate::answer_call::answer_call;
use crate::arrive_call::arrive_call;
use crate::change_agent::change_agent;
use crate::change_group::change_group;
use crate::clear_connection::clear_connection;
use crate::deflect_call::deflect_call;
use crate::hold_call::hold_call;
use crate::make::make_all;
use crate::make_call::make_call;
use crate::monitor_start::monitor_start;
use crate::monitor_stop::monitor_stop;
use crate::phone_off_hook::phone_off_hook;
use crate::reject_call::reject_call;
use crate::retrieve_call::retrieve_call;
use crate::set_agent_state::set_agent_state;
use crate::set_group_priority::set_group_priority;
use crate::single_step_transfer::single_step_transfer;
use acd_model::Served;
use acd_tables::Tables;
use acd_terms::{Command, Event, Outcome, Turn};
use std::alloc::AllocError;

/// The answer and the moves of the service. It changes nothing.
pub fn decide(tables: &Tables, at: Turn, command: &Command) -> Served
    requires calls { tables.now.last_call < 2 ^ 64 - 1 }
    requires monitors { tables.now.last_monitor < 2 ^ 64 - 1 }
    requires no_tick { IsNoTick command.now }
    ensures { result ≡ serve tables.now at command.now }
{
    match *command {
        Command::AddGroup {
            device,
            name,
            ring,
            wrap,
        } => add_group(tables, device, name, ring, wrap),
        Command::AddStation { device } => add_station(tables, device),
        Command::AddAgent { agent, name } => add_agent(tables, at, agent, name),
        Command::ArriveCall { caller, called } => arrive_call(tables, at, caller, called),
        Command::MakeCall { device, called } => make_call(tables, at.moment, device, called),
        Command::PhoneOffHook { call, device } => phone_off_hook(tables, at, call.number(), device),
        Command::AnswerCall { call, device } => answer_call(tables, at, call.number(), device),
        Command::HoldCall { call, device } => hold_call(tables, call.number(), device),
        Command::RetrieveCall { call, device } => retrieve_call(tables, call.number(), device),
        Command::ClearConnection { call, device } => {
            clear_connection(tables, at, call.number(), device)
        }
        Command::DeflectCall { call, device, to } => {
            deflect_call(tables, at, call.number(), device, to)
        }
        Command::SingleStepTransfer { call, device, to } => {
            single_step_transfer(tables, at, call.number(), device, to)
        }
        Command::SetAgentState { agent, requested } => {
            set_agent_state(tables, at, agent, requested)
        }
        Command::MonitorStart { device } => monitor_start(tables, device),
        Command::MonitorStop { monitor } => monitor_stop(tables, monitor.number()),
        Command::SetGroupPriority { device, priority } => {
            set_group_priority(tables, device, priority)
        }
        Command::RejectCall { call, device } => reject_call(tables, at, call.number(), device),
        Command::ChangeGroup {
            device,
            name,
            ring,
            wrap,
        } => change_group(tables, device, name, ring, wrap),
        Command::ChangeAgent { agent, name } => change_agent(tables, agent, name),
        Command::Tick => unreachable!(),
    }
}

/// Runs one service. It makes no offer, sets no figure and no counter but the last call and monitor,
/// and leaves the numbers of its events 0. A refusal changes nothing. After an error tables and events
/// are only to be dropped.
pub fn serve(
    tables: &mut Tables,
    at: Turn,
    command: &Command,
    events: &mut Vec<Event>,
) -> Result<Outcome, AllocError>
    requires calls { tables.old.last_call < 2 ^ 64 - 1 }
    requires monitors { tables.old.last_monitor < 2 ^ 64 - 1 }
    requires no_tick { IsNoTick command.now }
    ensures outcome { IfOk result
        (λ o. o ≡ outcome_of (serve tables.old at command.now)) }
    ensures made { OnOk result
        (AreMade at.moment (moves_for command.now tables.old at) tables events) }
{
    match decide(tables, at, command) {
        Err(refusal) => Ok(Outcome::Refused(refusal)),
        Ok(done) => {
            make_all(tables, at.moment, done.moves.as_slice(), events)?;
            Ok(Outcome::Done(done.answer))
        }
    }
}
