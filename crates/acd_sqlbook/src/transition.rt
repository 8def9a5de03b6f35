//! A commit of whole tables, by the changes that lead to them.

ghost use Rattle.std.specs.Prelude.{◌≡◌, ◌⊎◌, IfErr, IfOk, OnOk};
ghost use Rattle.acd_book.specs.Content.{commit_of};
ghost use Rattle.acd_sqlbook.specs.Calls.{LeadsBetween, ChangesLeadTo};
ghost use Rattle.acd_sqlbook.specs.Commit.{KeptFits};
ghost use Rattle.acd_sqlbook.specs.OverReady.{ReadyCommits, ReadyFailsOr, ReadyReads, ReadyStops};
ghost use Rattle.acd_sqlbook.specs.CommitStops.{AreCounted, Drops, DropsOf, StopsReplace};
ghost use Rattle.acd_sql_columns.specs.Relations.{meta_of};
ghost use Rattle.acd_sql_columns.specs.Transactions.{MetaFits};
ghost use Rattle.acd_sql_differences.specs.ChangeOrder.{rows_differences};
ghost use Rattle.acd_sql_statements.specs.StoreFailures.{IsMemory};

use crate::commit::{commit_all, kept_fits};
use crate::ready::{Ready, meta_fits};
use acd_book::Kept;
use acd_codec::request_text;
use acd_model::Change;
use acd_sql_columns::Meta;
use acd_sql_differences::{are_whole, rows_changes};
use acd_sql_statements::fitting::too_large;
use acd_terms::{Event, Rows};
use sqlite::{Alter, Constraint, Error, ErrorCode};
use std::alloc::Global;

// A record that is never removed is missing.
fn missing() -> Error {
    Error::SqliteFailure(ErrorCode::ConstraintViolation(Constraint::ForeignKey))
}

// The changes, where they can be made.
fn whole_changes(alloc: Global, held: &Rows, new: &Rows) -> Result<Vec<Change>, Error>
    ensures exact { IfOk result (λ changes. changes.items ≡ rows_differences held.now new.now) }
    ensures leads { IfOk result (λ changes. LeadsBetween held.now new.now changes.items) }
    ensures failed { IfErr result (λ e. IsMemory e ⊎ DropsOf held.now new.now) }
{
    let changes = rows_changes(alloc, held, new)?;
    if !are_whole(&changes) {
        return Err(missing());
    }
    Ok(changes)
}

// The changes that lead from the tables that are held to those of the rows.
fn changes_to<S: Alter>(
    alloc: Global,
    ready: &mut Ready<S>,
    rows: &Rows,
) -> Result<Vec<Change>, Error>
    ensures read { ReadyReads ready result (λ c found. ChangesLeadTo rows.now c found.items) }
    ensures cause { ReadyFailsOr ready result (Drops rows.now) }
{
    let held = ready.rows(alloc)?;
    whole_changes(alloc, &held, rows)
}

// The limits and the counters of the rows, where their columns can hold them, and the kept record fits.
fn meta_of(rows: &Rows, kept: &Kept) -> Result<Meta, Error>
    ensures is { IfOk result (λ meta. meta ≡ meta_of rows.now) }
    ensures fits { IfOk result (λ meta. MetaFits meta) }
    ensures kept { OnOk result (KeptFits kept.now) }
    ensures unfit { IfErr result (λ _. ¬ (AreCounted rows.now kept.now)) }
{
    let meta = Meta {
        limits: rows.limits,
        last_stamp: rows.last_stamp,
        last_moment: rows.last_moment,
        last_call: rows.last_call,
        last_monitor: rows.last_monitor,
        last_event: rows.last_event,
    };
    if meta_fits(&meta) && kept_fits(kept) {
        Ok(meta)
    } else {
        Err(too_large())
    }
}

/// Commits the tables, the events and the kept record, all or none.
///
/// A group, a station or an agent that is held and isn't among the rows is a failure of the store: no
/// request takes one out.
pub(crate) fn commit_rows<S: Alter>(
    alloc: Global,
    ready: &mut Ready<S>,
    rows: &Rows,
    events: &[Event],
    kept: &Kept,
) -> Result<(), Error>
    ensures commits { ReadyCommits ready result (commit_of rows.now events.now kept.now) }
    ensures cause { ReadyStops ready result (StopsReplace rows.now events.now kept.now) }
{
    let request = request_text(alloc, &kept.request)?;
    let meta = meta_of(rows, kept)?;
    match changes_to(alloc, ready, rows) {
        Ok(changes) => {
            ready.known_open = false;
            let conn = &mut ready.conn;
            // Calls of any number may have rows.
            let last = None;
            commit_all(conn, last, &changes, events, kept, request.as_str(), &meta)
        }
        Err(error) => Err(error),
    }
}
