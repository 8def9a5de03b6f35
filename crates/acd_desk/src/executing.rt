//! One request executed by the switch, before it is kept, and a switch loaded by rows.

ghost use Rattle.std.specs.Prelude.{◌≡◌, IfOk, IfErr};
ghost use Rattle.acd_model.specs.Rules.First.{BreaksNoRule};
ghost use Rattle.acd_desk.specs.Contents.Arrivals.{arrival_at};
ghost use Rattle.acd_desk.specs.Contents.AbstractDesk.{kept_at};
ghost use Rattle.acd_desk.specs.Desks.PreparedCommit.{HasExecuted};
ghost use Rattle.acd_desk.specs.Audits.Replay.{HasRoom};

use crate::working::LoadedSwitch;
use acd_book::{BookFault, Kept, Text};
use acd_codec::{outcome_status, reply_text};
use acd_switch::{Executed, RowFault, Switch};
use acd_terms::{Outcome, Request, Rows};
use std::alloc::{AllocError, Global};

/// A switch of the rows of a book. No honest book has rows that break a rule: that is a failure of the store.
pub(crate) fn loaded(alloc: Global, rows: &Rows) -> Result<LoadedSwitch, BookFault>
    ensures ok { IfOk result (λ loaded. loaded.switch.value ≡ rows.now) }
    ensures err { IfErr result (λ fault. fault ≡ BookFault.Store → ¬ BreaksNoRule rows.now) }
{
    match LoadedSwitch::from_rows(alloc, rows) {
        Ok(loaded) => Ok(loaded),
        Err(RowFault::Broken(_)) => Err(BookFault::Store),
        Err(RowFault::NoMemory) => Err(BookFault::NoMemory),
    }
}

/// Steps the switch, and makes the record that is kept. After an error the switch is only to be dropped.
pub(crate) fn executed(
    alloc: Global,
    switch: &mut Switch,
    moment: u32,
    request: &Request,
) -> Result<(Executed, Kept), AllocError>
    requires rules { BreaksNoRule switch.old }
    requires room { HasRoom switch.old }
    ensures { IfOk result (HasExecuted switch.old (arrival_at moment request.now) switch.new) }
{
    let done = switch.step_with_changes(moment, &request.command)?;
    let body = reply_text(alloc, &request.requester, request.invoke, done.outcome)?;
    let (stamp, moment) = (switch.last_stamp(), switch.last_moment());
    let kept = kept_record(stamp, moment, request, done.outcome, Text::new(body));
    Ok((done, kept))
}

// The record kept of a request, by the counters of the switch after it.
fn kept_record(stamp: u64, moment: u32, request: &Request, outcome: Outcome, body: Text) -> Kept
    ensures { result ≡ record (kept_at stamp moment request.now outcome) { body = body } }
{
    Kept {
        stamp,
        moment,
        request: *request,
        status: outcome_status(outcome),
        body,
    }
}
