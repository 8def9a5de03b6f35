//! Moves made on the tables. Nothing else writes them.

ghost use Rattle.std.specs.Prelude.{◌≡◌, [], OnOk};
ghost use Rattle.acd_model.specs.Moves.{changed, with_event};
ghost use Rattle.acd_services.specs.MovesOnTables.{AreMade, ExtendsList};

use acd_model::{Change, Move};
use acd_tables::Tables;
use acd_terms::Event;
use std::alloc::AllocError;

/// Makes one change. After an error the tables are only to be dropped.
pub fn change(tables: &mut Tables, change: &Change) -> Result<(), AllocError>
    ensures { OnOk result (tables.new ≡ changed tables.old change.now) }
{
    match change {
        Change::Nothing => Ok(()),
        Change::PutGroup(record) => tables.put_group(*record),
        Change::PutStation(record) => tables.put_station(*record),
        Change::PutAgent(record) => tables.put_agent(*record),
        Change::PutCall(record) => tables.put_call(*record),
        Change::PutConnection(record) => tables.put_connection(*record),
        Change::PutMonitor(record) => tables.put_monitor(*record),
        Change::RemoveCall(call) => tables.remove_call(*call),
        Change::RemoveConnection(call, device) => tables.remove_connection(*call, *device),
        Change::RemoveMonitor(monitor) => tables.remove_monitor(*monitor),
    }
}

// Makes one move.
fn make(
    tables: &mut Tables,
    moment: u32,
    one: &Move,
    events: &mut Vec<Event>,
) -> Result<(), AllocError>
    ensures rows { OnOk result (tables.new ≡ changed tables.old one.now.change) }
    ensures events { ExtendsList result events.old events.new
        (with_event moment one.now.report []) }
{
    change(tables, &one.change)?;
    if let Some(report) = one.report {
        events.push(Event {
            number: 0,
            moment,
            report,
        })?;
    }
    Ok(())
}

/// Makes the moves in order. After an error tables and events are only to be dropped.
pub fn make_all(
    tables: &mut Tables,
    moment: u32,
    moves: &[Move],
    events: &mut Vec<Event>,
) -> Result<(), AllocError>
    ensures { OnOk result (AreMade moment moves.now tables events) }
{
    for one in moves {
        make(tables, moment, one, events)?;
    }
    Ok(())
}
