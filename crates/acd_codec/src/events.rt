//! Event reports as JSON.

ghost use Rattle.std.specs.Prelude.{◌≡◌, IfOk, string_bytes};
ghost use Rattle.acd_codec.specs.Tokens.{AddsParts};
ghost use Rattle.acd_codec.specs.EventTexts.{subject_parts, further_parts, event_parts, event_text, page_parts, page_text};

use crate::writing::{
    Form, begun, ended, put_agent, put_device, put_list, put_number, put_number_if, put_text,
    put_text_if,
};
use acd_terms::{Cause, Columns, Event};
use json::Writer;
use std::alloc::{AllocError, Global};

// An event takes some hundred and twenty bytes.
const ROOM: usize = 192;

// Writes what the report is about.
fn put_subject(out: &mut Writer, columns: &Columns) -> Result<(), AllocError>
    ensures { AddsParts result out.old out.new (subject_parts columns.now) }
{
    put_agent(out, "agent", columns.agent)?;
    put_number_if(out, "call", columns.call)?;
    put_text_if(out, "cause", columns.cause.map(Cause::name))?;
    put_device(out, "device", columns.device)?;
    put_text(out, "event", columns.kind.name())
}

// Writes the members whose names follow.
fn put_further(
    out: &mut Writer,
    number: u64,
    moment: u32,
    columns: &Columns,
) -> Result<(), AllocError>
    ensures { AddsParts result out.old out.new (further_parts number moment columns.now) }
{
    put_device(out, "group", columns.group)?;
    put_number(out, "moment", u64::from(moment))?;
    put_number(out, "number", number)?;
    put_device(out, "to", columns.to)?;
    put_number_if(out, "waited", columns.waited.map(u64::from))
}

fn put_event(out: &mut Writer, event: &Event) -> Result<(), AllocError>
    ensures { AddsParts result out.old out.new (event_parts event.now) }
{
    let columns = event.report.columns();
    put_subject(out, &columns)?;
    put_further(out, event.number, event.moment, &columns)
}

// Event reports in a list.
struct Reports;

impl Form for Reports {
    type Item = Event;

    ghost use Rattle.acd_codec.specs.EventTexts.{event_data};

    ghost data_of = { event_data };

    fn write(out: &mut Writer, event: &Event) -> Result<(), AllocError> {
        out.begin_object()?;
        put_event(out, event)?;
        out.end_object()
    }
}

/// The text of an event report: compact JSON, its members in the order of their names.
pub fn event_text(alloc: Global, event: &Event) -> Result<String, AllocError>
    ensures { IfOk result (λ s. string_bytes s ≡ event_text event.now) }
{
    let mut out = begun(alloc, ROOM)?;
    put_event(&mut out, event)?;
    ended(out)
}

fn put_page(out: &mut Writer, events: &[Event], last: u64) -> Result<(), AllocError>
    ensures { AddsParts result out.old out.new (page_parts events.now last) }
{
    put_list::<Reports>(out, "events", events)?;
    put_number(out, "last", last)
}

/// The text of some event reports, beside the number of the desk's last one.
pub fn page_text(alloc: Global, events: &[Event], last: u64) -> Result<String, AllocError>
    ensures { IfOk result (λ s. string_bytes s ≡ page_text events.now last) }
{
    let mut out = begun(alloc, ROOM)?;
    put_page(&mut out, events, last)?;
    ended(out)
}
