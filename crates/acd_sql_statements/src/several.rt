//! Several events put by one statement.

ghost use Rattle.std.specs.Prelude.{◌≡◌, ◌≢◌, ◌≤◌, ◌+◌, ◌*◌, ◌++◌, [], length};
ghost use Rattle.acd_terms.specs.Lists.{Every};
ghost use Rattle.acd_sql_columns.specs.Tables.{events};
ghost use Rattle.acd_sql_statements.specs.InTransaction.{WritesRow};
ghost use Rattle.acd_sql_statements.specs.SeveralEvents.{bound_to, inserting_events, several_values, several_text};

use crate::write::write;
use acd_sql_columns::encode::event_values;
use acd_sql_columns::texts::INSERT_EVENT;
use acd_terms::Event;
use sqlite::types::ValueRef;
use sqlite::{Alter, Error, Transaction};

/// As many events as one statement puts.
pub const MOST: usize = 4;

const COLUMNS: usize = 10;

macro_rules! insert_rows {
    ($row:literal $(, $more:literal)*) => {
        concat!("INSERT INTO events (number, moment, kind, device, call, agent, grp, target, cause, waited) VALUES ", $row $(, ", ", $more)*)
    };
}

pub const INSERT_TWO_EVENTS: &str = insert_rows!(
    "(?1, ?2, ?3, ?4, ?5, ?6, ?7, ?8, ?9, ?10)",
    "(?11, ?12, ?13, ?14, ?15, ?16, ?17, ?18, ?19, ?20)"
);

pub const INSERT_THREE_EVENTS: &str = insert_rows!(
    "(?1, ?2, ?3, ?4, ?5, ?6, ?7, ?8, ?9, ?10)",
    "(?11, ?12, ?13, ?14, ?15, ?16, ?17, ?18, ?19, ?20)",
    "(?21, ?22, ?23, ?24, ?25, ?26, ?27, ?28, ?29, ?30)"
);

pub const INSERT_FOUR_EVENTS: &str = insert_rows!(
    "(?1, ?2, ?3, ?4, ?5, ?6, ?7, ?8, ?9, ?10)",
    "(?11, ?12, ?13, ?14, ?15, ?16, ?17, ?18, ?19, ?20)",
    "(?21, ?22, ?23, ?24, ?25, ?26, ?27, ?28, ?29, ?30)",
    "(?31, ?32, ?33, ?34, ?35, ?36, ?37, ?38, ?39, ?40)"
);

// The text that puts so many events.
fn several_text(count: usize) -> &'static str
    ensures { result.now ≡ several_text count }
{
    match count {
        1 => INSERT_EVENT,
        2 => INSERT_TWO_EVENTS,
        3 => INSERT_THREE_EVENTS,
        _ => INSERT_FOUR_EVENTS,
    }
}

// Writes the values of an event from a place on, and says where they end.
fn fill(values: &mut [ValueRef<'static>], at: usize, event: &Event) -> usize
    requires fits { events.Fits event.now }
    requires room { at + 10 ≤ length values.old }
    ensures end { result ≡ at + 10 }
    ensures length { length values.new ≡ length values.old }
    ensures filled { bound_to result values.new
        ≡ bound_to at values.old ++ events.values event.now }
{
    let end = at + COLUMNS;
    values[at..end].copy_from_slice(&event_values(event));
    end
}

// The values of the events, one event after the other, and NULL after them.
fn several_values(items: &[Event]) -> [ValueRef<'static>; MOST * COLUMNS]
    requires fits { Every events.Fits items.now }
    requires few { length items.now ≤ 4 }
    ensures { bound_to (length items.now * 10) result ≡ several_values items.now }
{
    let mut values = [ValueRef::Null; MOST * COLUMNS];
    let mut end = 0;
    for item in items {
        end = fill(&mut values, end, item);
    }
    values
}

/// Puts events that have no rows, four at most, by one statement. One that has a row is the store's to refuse.
pub fn insert_events<S: Alter>(tx: &mut Transaction<'_, S>, items: &[Event]) -> Result<(), Error>
    requires fits { Every events.Fits items.now }
    requires some { items.now ≢ [] }
    requires few { length items.now ≤ 4 }
    ensures { WritesRow S.Store tx.old.conn tx.new.conn result (inserting_events items.now) }
{
    let values = several_values(items);
    write(
        tx,
        several_text(items.len()),
        &values[..items.len() * COLUMNS],
    )
}
