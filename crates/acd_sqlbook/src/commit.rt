//! All writes of a commit, in one transaction.

ghost use Rattle.std.specs.Prelude.{◌≡◌, ◌≢◌, ◌↔◌, ◌<◌, ◌≤◌, [], length, filter, false, None, IfSome, IsTrue};
ghost use Rattle.sqlite.specs.Held.{state};
ghost use Rattle.acd_codec.specs.RequestForms.{IsSerial};
ghost use Rattle.acd_codec.specs.RequestTexts.{request_text};
ghost use Rattle.acd_terms.specs.Lists.{Every};
ghost use Rattle.acd_sqlbook.specs.Calls.{AddsOneStop, CommitsContent, KeepsContent, StaysOpen, WasClean};
ghost use Rattle.acd_sqlbook.specs.WriteChoice.{is_taken_away, IsVainBefore, IsWrittenNext, IsNextPart, puts_the_same, is_put_once, is_above, is_new};
ghost use Rattle.acd_sqlbook.specs.Commit.{CommitLeaves, PutsChange, WritesChange, WritesChanges, ChangeFits, EventFits, KeptFits, StampFits, IsGoodChange, with_events, made_from, top_call, top_monitor, last_call, last_monitor, meta_after};
ghost use Rattle.acd_sqlbook.specs.CommitStops.{RefusesWrite, StopsWrite, StopsInWritten, StopsAtEvents, StopsInEvents, StopsInCommit, FailsAt, HasWriteCauseAt, IsUndoneAt};
ghost use Rattle.acd_sql_schema.specs.Creation.{WasOpen};
ghost use Rattle.acd_sql_statements.specs.WriteRefusals.{RefusesAgent};
ghost use Rattle.acd_sql_columns.specs.InRange.{IsGoodEvent, IsReported};
ghost use Rattle.acd_sql_columns.specs.Transactions.{Works, Fits, FiguresFitColumns, MetaFits};

use acd_book::Kept;
use acd_model::Change;
use acd_sql_columns::Meta;
use acd_sql_columns::good::{
    agent_is_good, call_is_good, connection_is_good, event_is_good, group_is_good, is_formed,
    kept_is_good, meta_is_good, monitor_is_good, station_is_good,
};
use acd_sql_statements::fitting::{fits, too_large};
use acd_sql_statements::parts::{put_agent, put_group};
use acd_sql_statements::put::{insert, put, remove};
use acd_sql_statements::several::{MOST, insert_events};
use acd_sql_statements::write::{
    drop_connection, insert_connection, insert_kept, put_connection, set_meta,
};
use acd_terms::{AgentRecord, CallRecord, Event, Figures, MonitorRecord};
use sqlite::{Alter, Connection, Error, Transaction};

fn figures_fit(figures: &Figures) -> bool
    ensures { IsTrue result ↔ FiguresFitColumns figures.now }
{
    fits(figures.entered)
        && fits(figures.answered)
        && fits(figures.abandoned)
        && fits(figures.moved)
        && fits(figures.waited)
}

// A stamp, a place or the number of an event.
fn stamp_fits(number: u64) -> bool
    ensures { IsTrue result ↔ StampFits number }
{
    number >= 1 && fits(number)
}

fn place_fits(place: Option<u64>) -> bool
    ensures { IsTrue result ↔ IfSome place StampFits }
{
    match place {
        Some(place) => stamp_fits(place),
        None => true,
    }
}

// A call or a monitor.
fn is_serial(number: u64) -> bool
    ensures { IsTrue result ↔ IsSerial number }
{
    (1..=1_000_000_000).contains(&number)
}

fn is_serial_or_none(number: Option<u64>) -> bool
    ensures { IsTrue result ↔ IfSome number IsSerial }
{
    match number {
        Some(number) => is_serial(number),
        None => true,
    }
}

fn change_fits(change: &Change) -> bool
    ensures { IsTrue result ↔ ChangeFits change.now }
{
    match change {
        Change::Nothing | Change::PutStation(_) => true,
        Change::PutGroup(group) => figures_fit(&group.figures),
        Change::PutAgent(agent) => stamp_fits(agent.stamp),
        Change::PutCall(call) => is_serial(call.call),
        Change::PutConnection(connection) => {
            is_serial(connection.call) && place_fits(connection.place)
        }
        Change::PutMonitor(monitor) => is_serial(monitor.monitor) && fits(monitor.after_event),
        Change::RemoveCall(call) | Change::RemoveConnection(call, _) => fits(*call),
        Change::RemoveMonitor(monitor) => fits(*monitor),
    }
}

fn is_reported(event: &Event) -> bool
    ensures { IsTrue result ↔ IsReported event.now.report }
{
    is_formed(event) && is_serial_or_none(event.report.columns().call)
}

fn event_fits(event: &Event) -> bool
    ensures fit { IsTrue result ↔ EventFits event.now }
    ensures good { IsTrue result → IsGoodEvent event.now }
{
    if stamp_fits(event.number) && is_reported(event) {
        event_is_good(event);
        return true;
    }
    false
}

/// Whether the stamp and the status are those of a kept record.
pub(crate) fn kept_fits(kept: &Kept) -> bool
    ensures { IsTrue result ↔ KeptFits kept.now }
{
    stamp_fits(kept.stamp) && (kept.status == 200 || kept.status == 409)
}

// What is put is read back.
fn change_is_good(change: &Change)
    requires { ChangeFits change.now }
    ensures { IsGoodChange change.now }
{
    match change {
        Change::PutGroup(group) => group_is_good(group),
        Change::PutStation(station) => station_is_good(station),
        Change::PutAgent(agent) => agent_is_good(agent),
        Change::PutCall(call) => call_is_good(call),
        Change::PutConnection(connection) => connection_is_good(connection),
        Change::PutMonitor(monitor) => monitor_is_good(monitor),
        Change::Nothing
        | Change::RemoveCall(_)
        | Change::RemoveConnection(_, _)
        | Change::RemoveMonitor(_) => {}
    }
}

// Puts an agent. Reading its groups shows that they ascend.
fn write_agent<S: Alter>(tx: &mut Transaction<'_, S>, agent: &AgentRecord) -> Result<(), Error>
    requires { Fits agent.now.stamp }
    ensures same { tx.new.conn.ghost_name ≡ tx.old.conn.ghost_name }
    ensures works { Works (state S.Store tx.old.conn.now) (state S.Store tx.new.conn.now) }
    ensures put { PutsChange S.Store tx result (Change.PutAgent agent.now) }
    ensures failed { HasWriteCauseAt S.Store tx result (RefusesAgent agent.now) }
{
    let _ascending = agent.groups.as_slice();
    put_agent(tx, agent)
}

// Makes a change in its table. A new record has no row there yet, and is inserted.
fn make_change<S: Alter>(
    tx: &mut Transaction<'_, S>,
    change: &Change,
    is_new: bool,
) -> Result<(), Error>
    requires fits { ChangeFits change.now }
    requires free { (state S.Store tx.old.conn.now).step_limit ≡ None }
    ensures same { tx.new.conn.ghost_name ≡ tx.old.conn.ghost_name }
    ensures works { Works (state S.Store tx.old.conn.now) (state S.Store tx.new.conn.now) }
    ensures put { PutsChange S.Store tx result change.now }
    ensures failed { FailsAt S.Store tx result (RefusesWrite is_new change.now) }
{
    match change {
        Change::Nothing => Ok(()),
        Change::PutGroup(group) => put_group(tx, group),
        Change::PutStation(station) => insert(tx, station),
        Change::PutAgent(agent) => write_agent(tx, agent),
        Change::PutCall(call) if is_new => insert(tx, call),
        Change::PutCall(call) => put(tx, call),
        Change::PutConnection(connection) if is_new => insert_connection(tx, connection),
        Change::PutConnection(connection) => put_connection(tx, connection),
        Change::PutMonitor(monitor) => put(tx, monitor),
        Change::RemoveCall(call) => remove::<CallRecord, S>(tx, *call),
        Change::RemoveConnection(call, device) => drop_connection(tx, *call, *device),
        Change::RemoveMonitor(monitor) => remove::<MonitorRecord, S>(tx, *monitor),
    }
}

fn write_change<S: Alter>(
    tx: &mut Transaction<'_, S>,
    change: &Change,
    is_new: bool,
) -> Result<(), Error>
    requires { (state S.Store tx.old.conn.now).step_limit ≡ None }
    ensures same { tx.new.conn.ghost_name ≡ tx.old.conn.ghost_name }
    ensures works { Works (state S.Store tx.old.conn.now) (state S.Store tx.new.conn.now) }
    ensures put { WritesChange S.Store tx result change.now }
    ensures failed { FailsAt S.Store tx result (StopsWrite is_new change.now) }
{
    if !change_fits(change) {
        return Err(too_large());
    }
    change_is_good(change);
    make_change(tx, change, is_new)
}

// Whether both put the same call, or the same connection.
fn puts_the_same(one: &Change, other: &Change) -> bool
    ensures { result ≡ puts_the_same one.now other.now }
{
    match (one, other) {
        (Change::PutCall(one), Change::PutCall(other)) => one.call == other.call,
        (Change::PutConnection(one), Change::PutConnection(other)) => {
            one.call == other.call && one.device == other.device
        }
        _ => false,
    }
}

// How many of the changes put what this one puts.
fn puts_of(changes: &[Change], change: &Change) -> usize
    ensures { result ≡ length (filter (puts_the_same change.now) changes.now) }
{
    changes
        .iter()
        .filter(|other| puts_the_same(change, other))
        .count()
}

// Whether just one of the changes puts what this one puts.
fn is_put_once(changes: &[Change], change: &Change) -> bool
    ensures { result ≡ is_put_once changes.now change.now }
{
    puts_of(changes, change) == 1
}

// Whether a call is above the last one, where that is known.
fn is_above(last: Option<u64>, call: u64) -> bool
    ensures { result ≡ is_above last call }
{
    match last {
        Some(last) => call > last,
        None => false,
    }
}

// Whether the change puts a call above the last one, or a connection of such a call, and no other of the
// changes puts the same: then no row has its key.
fn is_new(last: Option<u64>, changes: &[Change], change: &Change) -> bool
    ensures { result ≡ is_new last changes.now change.now }
{
    match change {
        Change::PutCall(call) => is_above(last, call.call) && is_put_once(changes, change),
        Change::PutConnection(connection) => {
            is_above(last, connection.call) && is_put_once(changes, change)
        }
        Change::Nothing
        | Change::PutGroup(_)
        | Change::PutStation(_)
        | Change::PutAgent(_)
        | Change::PutMonitor(_)
        | Change::RemoveCall(_)
        | Change::RemoveConnection(_, _)
        | Change::RemoveMonitor(_) => false,
    }
}

// Whether the second change removes the connection that the first one puts.
fn is_removed_next(first: &Change, second: &Change) -> bool
    ensures is { result ≡ is_taken_away first.now second.now }
    ensures vain { IsTrue result → IsVainBefore first.now second.now }
{
    match (first, second) {
        (Change::PutConnection(connection), Change::RemoveConnection(call, device)) => {
            connection.call == *call && connection.device == *device
        }
        _ => false,
    }
}

// The change that is written next, and the rest: a connection that the very next change removes isn't put.
fn next_statement(changes: &[Change]) -> Option<(&Change, &[Change])>
    ensures some { IfSome result (λ p. IsWrittenNext changes.now p.0.now p.1.now) }
    ensures shorter { IfSome result (λ p. length p.1.now < length changes.now) }
    ensures none { result ≡ None → changes.now ≡ [] }
{
    let (first, remaining) = changes.split_first()?;
    match remaining.split_first() {
        Some((second, rest)) => {
            if is_removed_next(first, second) {
                return Some((second, rest));
            }
            Some((first, remaining))
        }
        None => Some((first, remaining)),
    }
}

// Where the last call is known, none above it has a row when the first change is written, and a new one is inserted.
fn write_changes<S: Alter>(
    tx: &mut Transaction<'_, S>,
    last: Option<u64>,
    changes: &[Change],
) -> Result<(), Error>
    requires { (state S.Store tx.old.conn.now).step_limit ≡ None }
    ensures same { tx.new.conn.ghost_name ≡ tx.old.conn.ghost_name }
    ensures works { Works (state S.Store tx.old.conn.now) (state S.Store tx.new.conn.now) }
    ensures put { WritesChanges S.Store tx result changes.now }
    ensures failed { FailsAt S.Store tx result (StopsInWritten last changes.now) }
{
    let mut rest = changes;
    while let Some((change, remaining)) = next_statement(rest) {
        write_change(tx, change, is_new(last, changes, change))?;
        rest = remaining;
    }
    Ok(())
}

fn events_fit(events: &[Event]) -> bool
    ensures fit { IsTrue result ↔ Every EventFits events.now }
    ensures good { IsTrue result → Every IsGoodEvent events.now }
{
    for event in events {
        if !event_fits(event) {
            return false;
        }
    }
    true
}

// The events of the next statement, and the rest.
fn next_events(events: &[Event]) -> Option<(&[Event], &[Event])>
    ensures some { IfSome result (λ p. IsNextPart events.now p.0.now p.1.now) }
    ensures shorter { IfSome result (λ p. length p.1.now < length events.now) }
    ensures none { result ≡ None → events.now ≡ [] }
{
    if events.is_empty() {
        return None;
    }
    Some(events.split_at(events.len().min(MOST)))
}

// Writes events by one statement.
fn write_some<S: Alter>(tx: &mut Transaction<'_, S>, events: &[Event]) -> Result<(), Error>
    requires limit { (state S.Store tx.old.conn.now).step_limit ≡ None }
    requires any { events.now ≢ [] }
    requires few { length events.now ≤ 4 }
    ensures same { tx.new.conn.ghost_name ≡ tx.old.conn.ghost_name }
    ensures works { Works (state S.Store tx.old.conn.now) (state S.Store tx.new.conn.now) }
    ensures put { CommitLeaves S.Store tx result (λ c. with_events c events.now) }
    ensures failed { FailsAt S.Store tx result (StopsAtEvents events.now) }
{
    if !events_fit(events) {
        return Err(too_large());
    }
    insert_events(tx, events)
}

fn write_events<S: Alter>(tx: &mut Transaction<'_, S>, events: &[Event]) -> Result<(), Error>
    requires { (state S.Store tx.old.conn.now).step_limit ≡ None }
    ensures same { tx.new.conn.ghost_name ≡ tx.old.conn.ghost_name }
    ensures works { Works (state S.Store tx.old.conn.now) (state S.Store tx.new.conn.now) }
    ensures put { CommitLeaves S.Store tx result (λ c. with_events c events.now) }
    ensures failed { FailsAt S.Store tx result (StopsInEvents events.now) }
{
    let mut rest = events;
    while let Some((some, remaining)) = next_events(rest) {
        write_some(tx, some)?;
        rest = remaining;
    }
    Ok(())
}

fn top_call(last: u64, change: &Change) -> u64
    ensures { result ≡ top_call last change.now }
{
    match change {
        Change::PutCall(call) => last.max(call.call),
        _ => last,
    }
}

// The greatest call number of these, or the last one.
fn last_call(last: u64, changes: &[Change]) -> u64
    ensures { result ≡ last_call last changes.now }
{
    let mut top = last;
    for change in changes {
        top = top_call(top, change);
    }
    top
}

fn top_monitor(last: u64, change: &Change) -> u64
    ensures { result ≡ top_monitor last change.now }
{
    match change {
        Change::PutMonitor(monitor) => last.max(monitor.monitor),
        _ => last,
    }
}

// The greatest monitor number of these, or the last one.
fn last_monitor(last: u64, changes: &[Change]) -> u64
    ensures { result ≡ last_monitor last changes.now }
{
    let mut top = last;
    for change in changes {
        top = top_monitor(top, change);
    }
    top
}

/// The counters after a commit, where there are numbers for its events.
pub(crate) fn counted(meta: &Meta, changes: &[Change], events: u64, kept: &Kept) -> Option<Meta>
    ensures is { IfSome result (λ m. m ≡ meta_after meta.now changes.now events kept.now) }
    ensures none { result ≡ None
        → ¬ (MetaFits (meta_after meta.now changes.now events kept.now)) }
{
    let last_event = meta.last_event.checked_add(events)?;
    Some(Meta {
        limits: meta.limits,
        last_stamp: kept.stamp,
        last_moment: kept.moment,
        last_call: last_call(meta.last_call, changes),
        last_monitor: last_monitor(meta.last_monitor, changes),
        last_event,
    })
}

fn write_all<S: Alter>(
    tx: &mut Transaction<'_, S>,
    last: Option<u64>,
    changes: &[Change],
    events: &[Event],
    kept: &Kept,
    request: &str,
    meta: &Meta,
) -> Result<(), Error>
    requires kept { KeptFits kept.now }
    requires request { request.now ≡ request_text kept.now.request }
    requires meta { MetaFits meta.now }
    requires free { (state S.Store tx.old.conn.now).step_limit ≡ None }
    ensures same { tx.new.conn.ghost_name ≡ tx.old.conn.ghost_name }
    ensures works { Works (state S.Store tx.old.conn.now) (state S.Store tx.new.conn.now) }
    ensures put { CommitLeaves S.Store tx result (made_from changes events kept meta) }
    ensures failed { FailsAt S.Store tx result (StopsInCommit last changes events kept meta) }
{
    write_changes(tx, last, changes)?;
    write_events(tx, events)?;
    kept_is_good(kept);
    insert_kept(tx, kept, request)?;
    meta_is_good(meta);
    set_meta(tx, meta)?;
    Ok(())
}

/// Writes all of it in one transaction, whose end alone adds to the stops. Where the last call is known, none above it
/// has a row yet: the store refuses one that has.
pub(crate) fn commit_all<S: Alter>(
    conn: &mut Connection<S>,
    last: Option<u64>,
    changes: &[Change],
    events: &[Event],
    kept: &Kept,
    request: &str,
    meta: &Meta,
) -> Result<(), Error>
    requires kept { KeptFits kept.now }
    requires request { request.now ≡ request_text kept.now.request }
    requires meta { MetaFits meta.now }
    requires idle { conn.old.in_transaction ≡ false }
    requires unlimited { conn.old.step_limit ≡ None }
    ensures idle { conn.new.in_transaction ≡ false }
    ensures done { CommitsContent S.Store conn result (made_from changes events kept meta) }
    ensures clean { WasClean S.Store conn.old conn.new }
    ensures up { StaysOpen S.Store conn result }
    ensures was { WasOpen S.Store conn.old conn.new }
    ensures undone { KeepsContent S.Store conn result }
    ensures stops { AddsOneStop S.Store conn (made_from changes events kept meta) }
    ensures limit { (state S.Store conn.new).step_limit ≡ (state S.Store conn.old).step_limit }
    ensures failed { IsUndoneAt S.Store conn result (StopsInCommit last changes events kept meta) }
{
    let mut tx = conn.transaction();
    write_all(&mut tx, last, changes, events, kept, request, meta)?;
    tx.commit()
}
